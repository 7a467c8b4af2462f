// What the words of a command line ask for.

/// What a run is asked for.
#[derive(Clone, Copy, PartialEq, Eq, Debug)]
pub struct RunAsked<'a> {
    /// The file of the image.
    pub image: &'a str,
    /// The file of the signers.
    pub signers: &'a str,
    /// The file of the script.
    pub script: &'a str,
    /// How many frames, 9 to 8192; none where the words do not say it.
    pub frames: Option<u32>,
    /// How many processors, 1 to 4.
    pub processors: u8,
}

/// What the words ask for.
#[derive(Clone, Copy, PartialEq, Eq, Debug)]
pub enum Asked<'a> {
    /// The report of a run: `run IMAGE SIGNERS SCRIPT [--frames N] [--processors N]`.
    Run(RunAsked<'a>),
    /// The measurement of an image: `measure IMAGE`.
    Measure(&'a str),
    /// The summary of the run of a number's image: `demo NUMBER`.
    Demo(u64),
}
