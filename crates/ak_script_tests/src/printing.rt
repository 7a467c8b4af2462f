// Scripts in their canonical form, and moves as a text.
use ak_core::{Flags, Frame, Handle, Lp, Move, Page};
use ak_outside::{MemSink, SinkFault};
use ak_script::{Script, entry_line, flags_line, move_line, words_line};
use std::test::Fail;

/// A script with every word, comments, empty lines and blanks, and two inputs in between.
const SCRIPT: &str =
    "# all words\n\tsetpte  4294967295 0 pwxad\r\nsetpte 1 2 -\nreadpte 3\neblock 4\n\netrack\newb 5 6 511\ninput 18446744073709551615\neldu 1 2 3 4 5\neldb 6 7 8 9 0\neremove 10\nepa 11\ndrop 12\neenter 0 18446744073709551615\neresume 1\nrun 2 1000000\ninterrupt 3\nauto 7\n  input 0";

/// Its canonical text: the inputs first.
const PRINTED: &str =
    "input 18446744073709551615\ninput 0\nsetpte 4294967295 0 pwxad\nsetpte 1 2 -\nreadpte 3\neblock 4\netrack\newb 5 6 511\neldu 1 2 3 4 5\neldb 6 7 8 9 0\neremove 10\nepa 11\ndrop 12\neenter 0 18446744073709551615\neresume 1\nrun 2 1000000\ninterrupt 3\nauto 7\n";

#[test]
fn canonical_text(rt: HostRuntime) -> Result<(), Fail> {
    let script = Script::read(rt.alloc(), SCRIPT.as_bytes())?;
    let mut out = MemSink::new(rt.alloc());
    out.room(1000)?;
    assert!(rt; script.print(&mut out).is_ok());
    assert_eq!(rt; out.taken(), PRINTED.as_bytes());
    Ok(())
}

#[test]
fn line_by_line(rt: HostRuntime) -> Result<(), Fail> {
    let script = Script::read(rt.alloc(), b"auto 2\ninput 5\netrack\n")?;
    let mut out = MemSink::new(rt.alloc());
    out.room(1000)?;
    out.fail_at(3)?;
    assert_eq!(rt; script.print(&mut out), Err(SinkFault::Failed));
    assert_eq!(rt; out.taken(), b"input 5\nauto 2\n".as_slice());
    Ok(())
}

#[test]
fn parts_of_a_text(rt: HostRuntime) -> Result<(), Fail> {
    let flags = Flags {
        p: true,
        w: false,
        x: false,
        a: false,
        d: true,
    };
    let lines = [
        move_line(Move::SetPte(Page(1), Frame(2), flags)),
        move_line(Move::Eldb(Frame(1), Handle(2), Page(3), Frame(4), 5)),
        move_line(Move::Interrupt(Lp(3))),
        move_line(Move::Etrack),
        flags_line(flags),
        words_line("pf", &[4096, 21]),
        entry_line("pte", &[7], flags),
    ];
    let mut text = String::new(rt.alloc());
    for line in &lines {
        text.push_str(line.as_str())?;
        text.push_str(";")?;
    }
    assert_eq!(rt;
        text.as_str(),
        "setpte 1 2 pd;eldb 1 2 3 4 5;interrupt 3;etrack;pd;pf 4096 21;pte 7 pd;"
    );
    Ok(())
}
