// Scripts and what they say, by the format's own text.
ghost use Rattle.std.specs.Prelude.{◌<◌, ◌^◌, length};

use ak_script::{Script, ScriptFault};
use std::alloc::Global;
use std::test::Fail;

/// A script, and after the last `=` what comes of it: its items and its inputs, or how many they are where they are more than
/// two, and of inputs three; or the number of the line that is refused, and why, by its number and its word. Where two lines or
/// words are wrong, the one that comes first in the order is told; skipped lines count. Each character is a byte, and `;` is a
/// newline. Before `%` stands how often a line comes first, and that line.
const CASES: &str = "\
=[] []
;;=[] []
 \t ;\t=[] []
\r;=[] []
#;# eblock \u{ff}\0;  #run\r;=[] []
eenter 0 0;=[Move(Eenter(Lp(0), 0))] []
eenter 1 0;=[Move(Eenter(Lp(1), 0))] []
eenter 3 18446744073709551615=[Move(Eenter(Lp(3), 18446744073709551615))] []
run 0 1;=[Move(Run(Lp(0), 1))] []
run 3 1000000;=[Move(Run(Lp(3), 1000000))] []
readpte 0;=[Move(ReadPte(Page(0)))] []
readpte 4294967295;=[Move(ReadPte(Page(4294967295)))] []
setpte 0 4294967295 -;=[Move(SetPte(Page(0), Frame(4294967295), Flags { p: false, w: false, x: false, a: false, d: false }))] []
setpte 4294967295 0 pwxad;=[Move(SetPte(Page(4294967295), Frame(0), Flags { p: true, w: true, x: true, a: true, d: true }))] []
setpte 1 2 p;=[Move(SetPte(Page(1), Frame(2), Flags { p: true, w: false, x: false, a: false, d: false }))] []
setpte 1 2 w;=[Move(SetPte(Page(1), Frame(2), Flags { p: false, w: true, x: false, a: false, d: false }))] []
setpte 1 2 x;=[Move(SetPte(Page(1), Frame(2), Flags { p: false, w: false, x: true, a: false, d: false }))] []
setpte 1 2 a;=[Move(SetPte(Page(1), Frame(2), Flags { p: false, w: false, x: false, a: true, d: false }))] []
setpte 1 2 d;=[Move(SetPte(Page(1), Frame(2), Flags { p: false, w: false, x: false, a: false, d: true }))] []
setpte 1 2 pxad;=[Move(SetPte(Page(1), Frame(2), Flags { p: true, w: false, x: true, a: true, d: true }))] []
run 0 1=[Move(Run(Lp(0), 1))] []
run 0 1\r;=[Move(Run(Lp(0), 1))] []
run 0 1 \r;=[Move(Run(Lp(0), 1))] []
 \trun\t 0  1\t ;=[Move(Run(Lp(0), 1))] []
eenter 0 7;;#;run 0 9=[Move(Eenter(Lp(0), 7)), Move(Run(Lp(0), 9))] []
readpte 10;readpte 10;=[Move(ReadPte(Page(10))), Move(ReadPte(Page(10)))] []
eblock 8;=[Move(Eblock(Frame(8)))] []
eblock 0;=[Move(Eblock(Frame(0)))] []
etrack;=[Move(Etrack)] []
 etrack\t\r;=[Move(Etrack)] []
ewb 1 2 511;=[Move(Ewb(Frame(1), Frame(2), 511))] []
ewb 4294967295 0 0;=[Move(Ewb(Frame(4294967295), Frame(0), 0))] []
eldu 1 2 3 4 5;=[Move(Eldu(Frame(1), Handle(2), Page(3), Frame(4), 5))] []
eldb 1 2 3 4 5;=[Move(Eldb(Frame(1), Handle(2), Page(3), Frame(4), 5))] []
eldu 4294967295 4294967295 4294967295 4294967295 511;=[Move(Eldu(Frame(4294967295), Handle(4294967295), Page(4294967295), Frame(4294967295), 511))] []
eremove 3;=[Move(Eremove(Frame(3)))] []
epa 12;=[Move(Epa(Frame(12)))] []
drop 4294967295;=[Move(Discard(Handle(4294967295)))] []
eresume 3;=[Move(Eresume(Lp(3)))] []
interrupt 0;=[Move(Interrupt(Lp(0)))] []
auto 1;=[Auto(1)] []
auto 20000;=[Auto(20000)] []
input 0;=[] [0]
input 18446744073709551615;=[] [18446744073709551615]
input 2;auto 3;input 1;etrack;input 1=[Auto(3), Move(Etrack)] [2, 1, 1]
run 0 \u{b1};=1: 1 notascii
\u{ff}run 0 1;=1: 1 notascii
\u{80}# no comment;=1: 1 notascii
run 0 1 # \u{80};=1: 1 notascii
etrack\r=1: 2 unknown
RUN 0 1;=1: 2 unknown
runs 0 1;=1: 2 unknown
ru 0 1;=1: 2 unknown
run\x0b 0 1;=1: 2 unknown
\r=1: 2 unknown
\r\r;=1: 2 unknown
\rrun 0 1;=1: 2 unknown
\0;=1: 2 unknown
run;=1: 3 words
run 0;=1: 3 words
run 0 1 1;=1: 3 words
run 0 1 # turns;=1: 3 words
eenter 0;=1: 3 words
eenter 0 0 0;=1: 3 words
readpte;=1: 3 words
readpte 0 0;=1: 3 words
setpte;=1: 3 words
setpte 0 8;=1: 3 words
setpte 0 8 - -;=1: 3 words
run 0 1\r=1: 4 number
run 0 1\r\r;=1: 4 number
run 0 +1;=1: 4 number
run 0 -1;=1: 4 number
run 0 01;=1: 4 number
run 00 1;=1: 4 number
run 0 1x;=1: 4 number
run 0 0x1;=1: 4 number
run 0 1_0;=1: 4 number
run 0 :;=1: 4 number
run 0 /;=1: 4 number
readpte -;=1: 4 number
setpte 0 p p;=1: 4 number
eenter 0 000000000000000000000000000001;=1: 4 number
eenter 0 99999999999999999999999999999x;=1: 4 number
eenter 4 0;=1: 5 range
eenter 256 0;=1: 5 range
eenter 0 18446744073709551616;=1: 5 range
eenter 0 18446744073709551620;=1: 5 range
eenter 0 100000000000000000000000000000;=1: 5 range
run 4 1;=1: 5 range
run 0 0;=1: 5 range
run 0 1000001;=1: 5 range
run 0 4294967297;=1: 5 range
readpte 4294967296;=1: 5 range
setpte 4294967296 8 p;=1: 5 range
setpte 0 4294967296 p;=1: 5 range
setpte 0 8 wp;=1: 7 flags
setpte 0 8 pp;=1: 7 flags
setpte 0 8 p-;=1: 7 flags
setpte 0 8 --;=1: 7 flags
setpte 0 8 P;=1: 7 flags
setpte 0 8 r;=1: 7 flags
setpte 0 8 pwxadp;=1: 7 flags
eblock \u{ff};=1: 1 notascii
run x;=1: 3 words
run 4 x;=1: 5 range
setpte x 4294967296 r;=1: 4 number
setpte 0 4294967296 r;=1: 5 range
setpte 0 x r;=1: 4 number
;# \u{ff};\t\r;run 0 1;run 0 0;block 8=5: 5 range
19999 readpte 0;%readpte 1=20000 []
20000 readpte 0;%;# \u{ff};=20000 []
20000 readpte 0;%;# \u{ff};readpte 1;=20003: 6 toomany
20000 readpte 0;%readpte;=20001: 3 words
20 #;run 0 1000000;%eenter 0 0;=21 []
20 #;run 0 1000000;%run 0 1;run 0 0;=41: 6 toomany
20 #;run 0 1000000;%run 0 0;run 0 1;=41: 5 range
20000 run 0 1000;%\r=20001: 2 unknown
run 0 1;eresume;=2: 3 words
etrack 0;=1: 3 words
eblock;=1: 3 words
ewb 1 2;=1: 3 words
ewb 1 2 3 4;=1: 3 words
eldu 1 2 3 4;=1: 3 words
eldb 1 2 3 4 5 6;=1: 3 words
eldu 1 2 3 4 x;=1: 4 number
eldb 1 2 x 4294967296 512;=1: 4 number
ewb 1 2 512;=1: 5 range
ewb 1 4294967296 512;=1: 5 range
eldu 1 4294967296 3 4 5;=1: 5 range
eldb 1 2 3 4 512;=1: 5 range
eldu 1 2 3 4294967296 5;=1: 5 range
drop 4294967296;=1: 5 range
discard 1;=1: 2 unknown
einterrupt 0;=1: 2 unknown
Auto 1;=1: 2 unknown
eresume 4;=1: 5 range
interrupt 4;=1: 5 range
auto 0;=1: 5 range
auto 20001;=1: 5 range
auto 01;=1: 4 number
auto;=1: 3 words
auto 1 2;=1: 3 words
input;=1: 3 words
input 1 2;=1: 3 words
input x;=1: 4 number
input -1;=1: 4 number
input 18446744073709551616;=1: 5 range
auto 20000;input 1;# \u{ff};=[Auto(20000)] [1]
auto 20000;input 1;etrack=3: 6 toomany
auto 19999;etrack;=[Auto(19999), Move(Etrack)] []
auto 19999;etrack;drop 0=3: 6 toomany
auto 19999;run 0 1000=[Auto(19999), Move(Run(Lp(0), 1000))] []
auto 19999;run 0 1001=2: 6 toomany
run 0 1;auto 20000=2: 6 toomany
etrack;auto 20000=2: 6 toomany
19999 etrack;%input 4;auto 1;input 5=20000 [4, 5]
19999 etrack;%auto 2=20000: 6 toomany
20000 input 1;%etrack=[Move(Etrack)] 20000 inputs";

/// Adds the bytes of a text.
fn push_bytes(bytes: &mut Vec<u8>, text: &str) -> Result<(), Fail> {
    for char in text.chars() {
        match char {
            ';' => bytes.push(b'\n')?,
            _ => bytes.push((u32::from(char) % 256) as u8)?,
        }
    }
    Ok(())
}

/// The bytes of a script.
fn bytes_of(alloc: Global, script: &str) -> Result<Vec<u8>, Fail> {
    let mut bytes = Vec::new(alloc);
    let (first, then) = script.split_once('%').unwrap_or(("0 ", script));
    let (times, line) = first.split_once(' ').unwrap_or(("0", ""));
    for _ in 0..times.parse::<u32>()? {
        push_bytes(&mut bytes, line)?;
    }
    push_bytes(&mut bytes, then)?;
    Ok(bytes)
}

/// What a script says.
fn said(alloc: Global, script: &Script) -> Result<String, Fail> {
    let items = match script.items() {
        items if items.len() > 2 => format!(in alloc; "{}", items.len())?,
        items => format!(in alloc; "{items:?}")?,
    };
    let inputs = match script.inputs() {
        inputs if inputs.len() > 3 => format!(in alloc; "{} inputs", inputs.len())?,
        inputs => format!(in alloc; "{inputs:?}")?,
    };
    Ok(format!(in alloc; "{items} {inputs}")?)
}

/// What comes of a script.
fn told(alloc: Global, bytes: &[u8]) -> Result<String, Fail>
    requires { length bytes.now < 2 ^ 32 }
{
    match Script::read(alloc, bytes) {
        Ok(script) => said(alloc, &script),
        Err(ScriptFault::Refused { line, why }) => {
            Ok(format!(in alloc; "{line}: {} {}", why.number(), why.word())?)
        }
        Err(fault) => Ok(format!(in alloc; "{fault:?}")?),
    }
}

#[test]
fn each_script(rt: HostRuntime) -> Result<(), Fail> {
    for case in CASES.split('\n') {
        let Some((script, wanted)) = case.rsplit_once('=') else {
            return Err(Fail::new("no outcome"));
        };
        let bytes = bytes_of(rt.alloc(), script)?;
        assert!(rt; bytes.len() < 1_000_000);
        let text = told(rt.alloc(), &bytes)?;
        assert_eq!(rt; text.as_str(), wanted, "{case}");
    }
    Ok(())
}
