// Where the held bytes stand in some places.
ghost use Rattle.std.specs.Prelude.{◌≡◌, ◌-◌, ◌≤◌};

// From start up to end.
#[derive(Clone, Copy)]
pub struct Span {
    pub start: usize,
    pub end: usize,
    ghost ordered: { start ≤ end },
}

impl Span {
    pub(crate) fn len(self) -> usize
        ensures { result ≡ self.end - self.start }
    {
        self.end - self.start
    }
}
