// A call of a run.
ghost use Rattle.std.specs.Prelude.{◌≡◌};
ghost use Rattle.rules.specs.Recorded.{call_of};
ghost use Rattle.rules.specs.Promise.{is_host};

// One call with its arguments.
#[derive(Drop)]
pub enum Call {
    // A host page and its bytes.
    Write(usize, Vec<u8>),
    // A host page and the length of the buffer.
    Read(usize, usize),
    // A host page.
    Trim(usize),
    Collect,
    Scan,
    Usage,
    // The length of the buffer.
    Save(usize),
}

impl Call {
    // Reads, writes and trims are the host's calls.
    pub fn is_host(&self) -> bool
        ensures value { result ≡ is_host (call_of self.now) }
    {
        matches!(self, Call::Write(..) | Call::Read(..) | Call::Trim(_))
    }
}
