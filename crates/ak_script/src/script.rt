// A script as it is read, line by line.
ghost use Rattle.std.specs.Prelude.{◌≡◌, ◌⊎◌, ◌<◌, ◌*◌, ◌^◌, ℕ, List, length, IfOk, Ok, Err};
ghost use Rattle.ak_script.specs.Script.{Script as TheScript, moves_in as the_moves, refused_line, script_of, turns_in as the_turns, KeepsLimits};
ghost use Rattle.ak_script.specs.declared.fault.Refusal.{Refusal};

use crate::fault::{Refusal, ScriptFault};
use crate::items::{Item, Line};
use crate::line::read_line;
use crate::splitting::split_line;
use ak_core::Move;
use std::alloc::Global;
use std::marker::Model;

// The most moves of a script.
const MOST_MOVES: u32 = 20_000;

// The most turns of a script.
const MOST_TURNS: u32 = 20_000_000;

// The turns as which a move of the honest kernel counts.
const TURNS_OF_HONEST_MOVE: u32 = 1000;

/// What the kernel does, and the inputs. Contracts see both lists.
#[derive(Debug, Drop)]
pub struct Script {
    items: Vec<Item>,
    inputs: Vec<u64>,
}

impl Model for Script {
    ghost use Rattle.ak_script.specs.Script.{KeepsLimits, Script as TheScript, script};

    ghost Value = { TheScript };

    ghost view = { λ s. script s.items.items s.inputs.items };

    ghost invariant = { λ s. KeepsLimits (script s.items.items s.inputs.items) };
}

impl Script {
    /// Reads a script: an item or an input a line, in words separated by spaces and tabs.
    ///
    /// An empty line and a line whose first word begins with `#` are skipped. The first other line that spells neither an item
    /// nor an input, or with which the moves or their turns are too many, is refused.
    pub fn read(alloc: Global, bytes: &[u8]) -> Result<Script, ScriptFault>
        requires { length bytes.now < 2 ^ 32 }
        ensures read { IfOk result (λ script. script_of bytes.now ≡ Ok script) }
        ensures refused { (line : ℕ) (why : Refusal) → result ≡ Err (ScriptFault.Refused line why) → script_of bytes.now ≡ Err (refused_line line why) }

        // Want of memory alone comes in the place of either.
        ensures reads { (script : TheScript) → script_of bytes.now ≡ Ok script → (result ≡ Ok script) ⊎ (result ≡ Err ScriptFault.OutOfMemory) }
        ensures refuses { (line : ℕ) (why : Refusal) → script_of bytes.now ≡ Err (refused_line line why) → (result ≡ Err (ScriptFault.Refused line why)) ⊎ (result ≡ Err ScriptFault.OutOfMemory) }
    {
        match read_lines(alloc, bytes) {
            Ok(script) => Ok(script),
            Err(fault) => Err(fault),
        }
    }

    /// What the kernel is to do, in order: at most 20,000 moves with at most 20,000,000 turns, where `Item::Auto(n)` counts as
    /// n moves with 1000 turns each.
    pub fn items(&self) -> &[Item]
        ensures value { result.now ≡ self.now.items }
        ensures limits { KeepsLimits self.now }
    {
        &self.items
    }

    /// The inputs for the program, in order.
    pub fn inputs(&self) -> &[u64]
        ensures value { result.now ≡ self.now.inputs }
        ensures limits { KeepsLimits self.now }
    {
        &self.inputs
    }
}

// What a script says.
fn read_lines(alloc: Global, bytes: &[u8]) -> Result<Script, ScriptFault>
    requires { length bytes.now < 2 ^ 32 }
    ensures read { IfOk result (λ script. script_of bytes.now ≡ Ok script) }
    ensures refused { (line : ℕ) (why : Refusal) → result ≡ Err (ScriptFault.Refused line why) → script_of bytes.now ≡ Err (refused_line line why) }
{
    let mut items = Vec::new(alloc);
    let mut inputs = Vec::new(alloc);
    let mut moves = 0u32;
    let mut turns = 0u32;
    let mut number = 0u32;
    let mut rest = bytes;
    while !rest.is_empty() {
        let (line, after) = split_line(rest);
        rest = after;
        number += 1;
        match read_line(line) {
            Ok(None) => {}
            Ok(Some(Line::Input(value))) => {
                inputs.push(value)?;
            }
            Ok(Some(Line::Item(item))) => {
                moves += moves_in(item);
                turns += turns_in(item);
                if moves > MOST_MOVES || turns > MOST_TURNS {
                    return Err(ScriptFault::Refused {
                        line: number,
                        why: Refusal::TooMany,
                    });
                }
                items.push(item)?;
            }
            Err(why) => return Err(ScriptFault::Refused { line: number, why }),
        }
    }
    Ok(Script { items, inputs })
}

// As how many moves an item counts.
fn moves_in(item: Item) -> u32
    ensures { result ≡ the_moves item }
{
    match item {
        Item::Move(_) => 1,
        Item::Auto(moves) => moves,
    }
}

// As how many turns an item counts.
fn turns_in(item: Item) -> u32
    requires { 1000 * the_moves item < 2 ^ 32 }
    ensures { result ≡ the_turns item }
{
    match item {
        Item::Move(Move::Run(_, turns)) => turns,
        Item::Move(_) => 0,
        Item::Auto(moves) => TURNS_OF_HONEST_MOVE * moves,
    }
}
