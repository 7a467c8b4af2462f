// What a call is given, and what comes of it.
use crate::files::{Documents, held};
use ak_outside::{MemFiles, MemSink};
use ak_top::{Left, autarky};
use anyhow::{Result, bail};
use std::alloc::Global;

/// The most bytes of a file.
const FILE_LIMIT: usize = 8_388_608;

/// What a call is given.
#[derive(Drop)]
pub struct Given {
    words: Vec<String>,
    script: String,
    files: MemFiles,
    out: MemSink,
    err: MemSink,
}

impl Given {
    /// What these lines give, with the documents that the words name, and sinks with room.
    pub fn new(alloc: Global, documents: &Documents, lines: &str, wanted: &str) -> Result<Given> {
        let mut given = Given {
            words: Vec::new(alloc),
            script: String::new(alloc),
            files: MemFiles::new(alloc),
            out: MemSink::new(alloc),
            err: MemSink::new(alloc),
        };
        held(given.out.room(1_000_000))?;
        held(given.err.room(10_000))?;
        for line in lines.lines() {
            given.take(alloc, documents, line, wanted)?;
        }
        if !given.script.is_empty() {
            held(given.files.put("s", given.script.as_bytes()))?;
        }
        Ok(given)
    }

    /// Takes a line of a case.
    fn take(
        &mut self,
        alloc: Global,
        documents: &Documents,
        line: &str,
        wanted: &str,
    ) -> Result<()> {
        match line.split_once(' ') {
            Some(("#", _)) => Ok(()),
            Some(("$", words)) => self.take_words(alloc, documents, words),
            Some(("|", "..")) => self.take_moves(wanted),
            Some(("|", line)) => self.take_script(line),
            Some(("read", call)) => held(self.files.fail_at(call.parse::<u32>()?)),
            Some(("write", call)) => held(self.out.fail_at(call.parse::<u32>()?)),
            Some(("tell", call)) => held(self.err.fail_at(call.parse::<u32>()?)),
            Some(("longest", name)) => self.put_remark(alloc, name, FILE_LIMIT),
            Some(("long", name)) => self.put_remark(alloc, name, FILE_LIMIT + 1),
            Some(("times", line)) => self.take_times(line),
            _ => bail!("a line without a mark: {line}"),
        }
    }

    /// Takes the words.
    fn take_words(&mut self, alloc: Global, documents: &Documents, words: &str) -> Result<()> {
        for word in words.split(' ') {
            documents.put(alloc, &mut self.files, word)?;
            self.words.push(String::from_str(alloc, word)?)?;
        }
        Ok(())
    }

    /// Takes a line of the script.
    fn take_script(&mut self, line: &str) -> Result<()> {
        self.script.push_str(line)?;
        self.script.push_str("\n")?;
        Ok(())
    }

    /// Takes a line of the script so many times.
    fn take_times(&mut self, line: &str) -> Result<()> {
        let Some((times, line)) = line.split_once(' ') else {
            bail!("no number");
        };
        for _ in 0..times.parse::<u32>()? {
            self.take_script(line)?;
        }
        Ok(())
    }

    /// Takes the moves of a report.
    fn take_moves(&mut self, report: &str) -> Result<()> {
        for line in report.lines() {
            if let Some((numbered, _)) = line.split_once(" -> ") {
                if let Some((_, line)) = numbered.split_once(' ') {
                    self.take_script(line)?;
                }
            }
        }
        Ok(())
    }

    /// Puts a file that is one remark of so many bytes.
    fn put_remark(&mut self, alloc: Global, name: &str, length: usize) -> Result<()> {
        let mut bytes = Vec::with_capacity(alloc, length)?;
        for _ in 0..length {
            bytes.push(b'#')?;
        }
        held(self.files.put(name, &bytes))
    }

    /// Makes the call, and gives the status.
    pub fn call(&mut self, alloc: Global, left: &mut Left) -> u8 {
        autarky(
            alloc,
            &self.words,
            &mut self.files,
            &mut self.out,
            &mut self.err,
            left,
        )
    }

    /// What `out` took.
    pub fn taken(&self) -> &[u8] {
        self.out.taken()
    }

    /// Makes the call, and tells what came of it. A run is left exactly where a report or a summary was written.
    pub fn play(&mut self, alloc: Global) -> Result<String> {
        let mut left = Left::Nothing;
        let status = self.call(alloc, &mut left);
        let is_left = match left {
            Left::Nothing => false,
            Left::Run(_) => true,
        };
        self.told(alloc, status, is_left)
    }

    /// What came of the call.
    fn told(&self, alloc: Global, status: u8, is_left: bool) -> Result<String> {
        let report = str::from_utf8(self.out.taken())?;
        let told = str::from_utf8(self.err.taken())?;
        let is_whole = report.starts_with("autarky 1\n") || report.starts_with("demo ");
        if is_left != (is_whole && told.is_empty()) {
            bail!("what is left");
        }
        let text = format!(in alloc; "{report}! {told}= {status}")?;
        Ok(text)
    }
}
