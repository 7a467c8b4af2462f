// Laws on instructions and the flat run.
ghost use Rattle.ak_core.specs.Mem.{Access};
ghost use Rattle.ak_core.specs.declared.instruction.Decoded.TheVariants.{Whole};
ghost use Rattle.ak_core.specs.declared.instruction.Instr.{Instr};
ghost use Rattle.ak_model.specs.Flat.{Decodes, Flat, FlatRun, HasRegisters, IsEncoding, decode, flat_run, line};
ghost use Rattle.ak_model.specs.Paging.{pages, place};
ghost use Rattle.std.specs.Prelude.{List, Some, [], length, slice_get, take, ℕ, ◌++◌, ◌+◌, ◌<◌, ◌≡◌, ◌≤◌};
ghost use Rattle.ak_core.specs.Layout;

/// An instruction makes at most four accesses.
pub fn few_accesses()
    ensures { (layout : Layout.Layout) (flat : Flat) → length (line layout flat).accesses ≤ 4 }
{}

/// More answers to calls leave a flat run as it was, as far as it went.
pub fn more_call_answers()
    ensures { (layout : Layout.Layout) (image answers more : List ℕ) (i : ℕ) (run : FlatRun)
        → flat_run layout image answers i ≡ Some run
        → flat_run layout image (answers ++ more) i ≡ Some (record run { answers = run.answers ++ more }) }
{}

/// Ten bytes tell what bytes begin with, and a whole instruction is among them.
pub fn ten_bytes()
    ensures enough { (bytes : List ℕ) → decode (take 10 bytes) ≡ decode bytes }
    ensures whole { (bytes : List ℕ) (instr : Instr) (n : ℕ) → decode bytes ≡ Whole instr n → n ≤ length bytes }
    ensures most { (bytes : List ℕ) (instr : Instr) (n : ℕ) → decode bytes ≡ Whole instr n → n ≤ 10 }
{}

/// Each register that a decoded instruction names is one of the sixteen.
pub fn sixteen_registers()
    ensures { (bytes : List ℕ) (instr : Instr) (n : ℕ) → decode bytes ≡ Whole instr n → HasRegisters instr }
{}

/// No encoding begins another: where bytes are one, and are one with more bytes after them, no more were added, and they
/// are of one row and spell one instruction.
pub fn no_encoding_begins_another()
    ensures { (i j : ℕ) (bytes more : List ℕ) (a b : Instr)
        → IsEncoding i bytes a → IsEncoding j (bytes ++ more) b → (i ≡ j) × (more ≡ []) × (a ≡ b) }
{}

/// An instruction is decoded exactly where the bytes begin with its encoding, more bytes are wanted exactly where they are
/// a proper prefix of an encoding, and bytes are illegal exactly where no encoding begins with them nor they with one.
pub fn decoded_both_ways()
    ensures { (bytes : List ℕ) → Decodes bytes (decode bytes) }
{}

/// An instruction accesses pages of the program alone.
pub fn program_pages()
    ensures { (layout : Layout.Layout) (flat : Flat) (place : ℕ) (t : Access)
        → slice_get (line layout flat).accesses place ≡ Some t → t.page.0 < pages layout }
{}
