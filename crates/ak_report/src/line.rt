// The lines of the texts, each without its newline.
ghost use Rattle.std.specs.Prelude.{◌≡◌, ◌≤◌, ◌++◌, ◌∷◌, [], codes, length};
ghost use Rattle.arrayvec.specs.ArrayString.{array_string_len};
ghost use Rattle.ak_report.specs.Report.{access_text, answer_text, cause_text, event_line as event_line_text, exit_text, kind_text, move_line as move_line_text, output_line as output_line_text, stop_line as stop_line_text};

use ak_core::{Answer, Event, Exit, Kind, Move, Page, Stop, StopCause};
use ak_script::{LineText, entry_line, move_line, words_line};
use arrayvec::ArrayString;
use itoa::Buffer;

/// The text of a line that may have a move and an answer. It takes no memory.
pub type LongLine = ArrayString<256>;

/// A move with its number and its answer.
pub fn answered_line(number: u64, m: Move, answer: Answer) -> LongLine
    ensures text { result.bytes ≡ move_line_text (record { number = number; move = m; answer = answer }) }
    ensures short { array_string_len result ≤ 255 }
{
    let mut buffer = Buffer::new();
    let mut line = LongLine::new();
    line.push_str(buffer.format(number));
    line.push_str(" ");
    line.push_str(move_line(m).as_str());
    line.push_str(" -> ");
    line.push_str(answer_line(answer).as_str());
    line
}

/// An answer: what was done, or the name of the refusal.
pub fn answer_line(answer: Answer) -> LineText
    ensures text { result.bytes ≡ answer_text answer }
    ensures short { array_string_len result ≤ 60 }
{
    match answer {
        Answer::Ok => words_line("ok", &[]),
        Answer::OkHandle(handle) => words_line("handle", &[u64::from(handle.0)]),
        Answer::Pte(frame, flags) => entry_line("pte", &[u64::from(frame.0)], flags),
        Answer::Exit(exit) => exit_line(exit),
        Answer::NoPage => words_line("nopage", &[]),
        Answer::NotEpc => words_line("notepc", &[]),
        Answer::IsSecs => words_line("issecs", &[]),
        Answer::Free => words_line("free", &[]),
        Answer::WrongType => words_line("wrongtype", &[]),
        Answer::InUse => words_line("inuse", &[]),
        Answer::Blocked => words_line("blocked", &[]),
        Answer::NotBlocked => words_line("notblocked", &[]),
        Answer::NotTracked => words_line("nottracked", &[]),
        Answer::PrevIncomplete => words_line("previncomplete", &[]),
        Answer::BadVa => words_line("badva", &[]),
        Answer::SlotOccupied => words_line("slotoccupied", &[]),
        Answer::SlotEmpty => words_line("slotempty", &[]),
        Answer::MacFail => words_line("macfail", &[]),
        Answer::EnclaveActive => words_line("enclaveactive", &[]),
        Answer::NoHandle => words_line("nohandle", &[]),
        Answer::NoLp => words_line("nolp", &[]),
        Answer::Inside => words_line("inside", &[]),
        Answer::Outside => words_line("outside", &[]),
        Answer::TcsFault => words_line("tcsfault", &[]),
        Answer::Busy => words_line("busy", &[]),
        Answer::Gp => words_line("gp", &[]),
        Answer::Pending => words_line("pending", &[]),
        Answer::SsaFault => words_line("ssafault", &[]),
    }
}

fn exit_line(exit: Exit) -> LineText
    ensures text { result.bytes ≡ exit_text exit }
    ensures short { array_string_len result ≤ 60 }
{
    match exit {
        Exit::Still => words_line("in", &[]),
        Exit::Pf(base, code) => words_line("pf", &[base, u64::from(code)]),
        Exit::Vector(vector) => words_line("vector", &[u64::from(vector)]),
        Exit::Call(number, argument) => words_line("call", &[number, argument]),
        Exit::Ask(dropped, cluster) => {
            words_line("ask", &[u64::from(dropped), u64::from(cluster)])
        }
        Exit::Ready => words_line("ready", &[]),
        Exit::Nothing => words_line("nothing", &[]),
        Exit::Stopped => words_line("stopped", &[]),
        Exit::Ended(status) => words_line("ended", &[status]),
        Exit::Trapped(vector) => words_line("trapped", &[u64::from(vector)]),
    }
}

/// An output of the program.
pub fn output_line(output: u64) -> LineText
    ensures text { result.bytes ≡ output_line_text output }
    ensures short { array_string_len result ≤ 120 }
{
    words_line("output", &[output])
}

/// An event of the program.
pub fn event_line(event: Event) -> LineText
    ensures text { result.bytes ≡ event_line_text event }
    ensures short { array_string_len result ≤ 120 }
{
    match event {
        Event::Call(count, number, argument) => {
            words_line("event call", &[count, number, argument])
        }
        Event::Miss(count, cluster) => words_line("event miss", &[count, u64::from(cluster)]),
        Event::Trap(count, vector) => words_line("event trap", &[count, u64::from(vector)]),
        Event::Break(count) => words_line("event break", &[count]),
    }
}

/// Why the enclave stopped, and the move to blame.
pub fn stop_line(stop: Option<Stop>) -> LineText
    ensures text { result.bytes ≡ stop_line_text stop }
    ensures short { array_string_len result ≤ 120 }
{
    match stop {
        None => words_line("stop none", &[]),
        Some(stop) => {
            let mut line = cause_line(stop.cause);
            line.push_str(words_line(" blame", &[u64::from(stop.blame)]).as_str());
            line
        }
    }
}

fn cause_line(cause: StopCause) -> LineText
    ensures text { result.bytes ≡ codes "stop " ++ cause_text cause }
    ensures short { array_string_len result ≤ 60 }
{
    match cause {
        StopCause::Unmapped(page, kind) => access_line("stop unmapped", page, kind),
        StopCause::RuntimeUnmapped(page, kind) => access_line("stop runtime", page, kind),
        StopCause::FetchNotHonoured(page, kind) => access_line("stop fetch", page, kind),
        StopCause::ResumedEarly => words_line("stop resumed", &[]),
        StopCause::Stuck(page, kind) => access_line("stop stuck", page, kind),
    }
}

// A name, a page, and how it was accessed.
fn access_line(name: &str, page: Page, kind: Kind) -> LineText
    requires room { length name.now ≤ 30 }
    ensures text { result.bytes ≡ name.now ++ access_text page kind }
    ensures short { array_string_len result ≤ 60 }
{
    let mut line = words_line(name, &[u64::from(page.0)]);
    line.push_str(" ");
    line.push_str(kind_name(kind));
    line
}

fn kind_name(kind: Kind) -> &'static str
    ensures text { result.now ≡ kind_text kind }
    ensures short { length result.now ≤ 5 }
{
    match kind {
        Kind::Read => "read",
        Kind::Write => "write",
        Kind::Exec => "exec",
    }
}
