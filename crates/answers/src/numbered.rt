// What the check, joining and flattening have in common: each answer has a number that is given back, and a place that goes with it.
ghost use Rattle.std.specs.Prelude.{◌≡◌, ℕ};

pub trait Numbered {
    ghost number: { Self → ℕ };

    ghost place: { Self → ℕ };

    fn number(self) -> usize
        ensures { result ≡ number self };

    fn place(self) -> usize
        ensures { result ≡ place self };
}
