// Command lines, and what they ask for.
use ak_words::{Asked, read_words};
use std::alloc::Global;
use std::test::Fail;

/// The words of a line, and after ` => ` what they ask for: `run IMAGE SIGNERS SCRIPT FRAMES PROCESSORS` with 0 frames where
/// none are said, `measure IMAGE`, `demo NUMBER`, or `none`. `''` is the empty word.
const LINES: &str = "\
run a b c => run a b c 0 1
run c b a => run c b a 0 1
run a a a => run a a a 0 1
measure a => measure a
run measure run run => run measure run run 0 1
run a.toml ./b /tmp/c => run a.toml ./b /tmp/c 0 1
run a=b =c d= => run a=b =c d= 0 1
run a-b b- c-- => run a-b b- c-- 0 1
run \u{e9} \u{1f980} c => run \u{e9} \u{1f980} c 0 1
run a b c --frames 9 => run a b c 9 1
run a b c --frames=9 => run a b c 9 1
run --frames 9 a b c => run a b c 9 1
run a --frames 9 b c => run a b c 9 1
run a b --frames=9 c => run a b c 9 1
run --frames=9 a b c => run a b c 9 1
run a b c --processors 1 => run a b c 0 1
run a b c --processors 2 => run a b c 0 2
run --processors=3 a b c => run a b c 0 3
run a --processors 4 b c => run a b c 0 4
run a --processors 4 --frames 8192 b c => run a b c 8192 4
run --frames=10 a --processors=2 b c => run a b c 10 2
run a b c --processors 2 --frames 100 => run a b c 100 2
run -- a b c => run a b c 0 1
run a -- b c => run a b c 0 1
run a b c -- => run a b c 0 1
run --frames 9 -- a b c => run a b c 9 1
run --frames=9 --processors 2 -- -a --b -- => run -a --b -- 9 2
run a -- --frames 9 => run a --frames 9 0 1
run -- --frames=9 --help -h => run --frames=9 --help -h 0 1
run -- -- -- -- => run -- -- -- 0 1
run - b c => run - b c 0 1
run - - - => run - - - 0 1
run '' b c => run  b c 0 1
run a -- '' c => run a  c 0 1
measure -- a => measure a
measure a -- => measure a
measure -- -a => measure -a
measure -- -- => measure --
measure -- --frames => measure --frames
measure - => measure -
measure '' => measure 
measure run => measure run
demo 0 => demo 0
demo 1 => demo 1
demo 10 => demo 10
demo 18446744073709551615 => demo 18446744073709551615
demo -- 7 => demo 7
demo 7 -- => demo 7
'' => none
a => none
run => none
measure => none
Run a b c => none
runs a b c => none
ru a b c => none
RUN a b c => none
measured a => none
-- run a b c => none
--frames 9 run a b c => none
help => none
--help => none
-h => none
--version => none
run --help => none
run -h => none
run a b c --help => none
run a b c -h => none
run a b c --version => none
run a b c -V => none
run help => none
measure --help => none
measure -h => none
measure a -h => none
run a => none
run a b => none
run a b c d => none
run a b -- c d => none
run -- a b => none
run a b c -x => none
run -x a b c => none
run -\u{e9} a b c => none
run a -b c => none
run a b --c => none
run --- a b c => none
run a b c --fr 9 => none
run a b c --frame 9 => none
run a b c --framess 9 => none
run a b c --frame=9 => none
run a b c -frames 9 => none
run a b c --Frames 9 => none
run a b c --FRAMES=9 => none
run a b c --=9 => none
run a b c --frames => none
run --frames a b c => none
run a b c --frames= => none
run a b c --frames '' => none
run a b c --frames -- => none
run a b c --frames -- 9 => none
run a b c --frames - => none
run a b c --frames -9 => none
run a b c --frames=-9 => none
run a b c --frames +9 => none
run a b c --frames 9x => none
run a b c --frames x => none
run a b c --frames 09 => none
run a b c --frames=09 => none
run a b c --frames 0x10 => none
run a b c --frames 1_0 => none
run a b c --frames 9.0 => none
run a b c --frames \u{669} => none
run a b c --frames 0 => none
run a b c --frames 8 => none
run a b c --frames 8193 => none
run a b c --frames 4294967305 => none
run a b c --frames 18446744073709551625 => none
run a b c --frames=9=9 => none
run a b c --frames 9 10 => none
run a b c --frames 9 --frames 9 => none
run a b c --frames 9 --frames=9 => none
run a b c --frames=9 --frames=9 => none
run --frames=9 a --frames 9 b c => none
run --frames=9 a b c --frames => none
run a b c --frames --frames 9 => none
run a b c --frames --frames=9 => none
run a b c --frames --processors 2 => none
run a b c --processors 0 => none
run a b c --processors 5 => none
run a b c --processors 257 => none
run a b c --processors 01 => none
run a b c --processors= => none
run a b c --processors => none
run a b c --processors -1 => none
run a b c --processors 1 --processors 1 => none
run a b c --processors=1 --processors=2 => none
run a b c --process 1 => none
run a b c -- --frames 9 => none
measure a b => none
measure a -- b => none
measure -a => none
measure --frames 9 => none
measure a --frames 9 => none
measure a --frames=9 => none
measure a --processors 1 => none
measure a --processors=1 => none
measure --frames 9 a => none
demo => none
demo -- => none
demo a => none
demo '' => none
demo - => none
demo -1 => none
demo -- -1 => none
demo +1 => none
demo 00 => none
demo 01 => none
demo 0x1 => none
demo 1e3 => none
demo 18446744073709551616 => none
demo 118446744073709551615 => none
demo 1 2 => none
demo 1 -- 2 => none
demo 1 --frames 9 => none
demo --frames=9 1 => none
demo 1 --processors 1 => none
demo --help => none
demo 1 -h => none
Demo 1 => none
demos 1 => none";

/// What words ask for, as a line says it.
fn told(alloc: Global, asked: Option<Asked<'_>>) -> Result<String, Fail> {
    let text = match asked {
        Some(Asked::Run(run)) => {
            let frames = run.frames.unwrap_or(0);
            format!(in alloc;
                "run {} {} {} {frames} {}",
                run.image, run.signers, run.script, run.processors
            )?
        }
        Some(Asked::Measure(image)) => format!(in alloc; "measure {image}")?,
        Some(Asked::Demo(number)) => format!(in alloc; "demo {number}")?,
        None => String::from_str(alloc, "none")?,
    };
    Ok(text)
}

#[test]
fn each_line_asks_for_what_it_says(rt: HostRuntime) -> Result<(), Fail> {
    let alloc = rt.alloc();
    for line in LINES.lines() {
        let Some((given, wanted)) = line.split_once(" => ") else {
            return Err(Fail::new("a line that does not say what it asks for"));
        };
        let mut words: Vec<String> = Vec::new(alloc);
        for word in given.split(' ') {
            let word = if word == "''" { "" } else { word };
            words.push(String::from_str(alloc, word)?)?;
        }
        let Ok(asked) = read_words(alloc, &words) else {
            return Err(Fail::new("out of memory"));
        };
        let text = told(alloc, asked)?;
        assert_eq!(rt; text.as_str(), wanted, "at {line}");
    }
    Ok(())
}

#[test]
fn no_word_asks_for_nothing(rt: HostRuntime) -> Result<(), Fail> {
    let words: Vec<String> = Vec::new(rt.alloc());
    let Ok(asked) = read_words(rt.alloc(), &words) else {
        return Err(Fail::new("out of memory"));
    };
    assert!(rt; asked.is_none());
    Ok(())
}
