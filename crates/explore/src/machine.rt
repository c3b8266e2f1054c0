// Systems that a program can run.
ghost use Rattle.std.specs.Prelude.{◌≡◌};
ghost use Rattle.explore.specs.System.{System};

// A system of nodes `N`, with at most 255 labels.
pub trait Machine<N: Copy> {
    ghost system: { Self → System N };

    fn labels(&self) -> u8
        ensures { result ≡ (system self.now).labels };

    fn first(&self) -> N
        ensures { result ≡ (system self.now).first };

    fn next(&self, node: N, label: u8) -> Option<N>
        ensures { result ≡ (system self.now).next node label };
}
