// A number without a refusal.
ghost use Rattle.std.specs.Prelude.{◌≡◌, true};
ghost use Rattle.refusals.specs.Unlisted.{is_unlisted};

// A number that no refusal has. A caller of C may hand in a projection that says it was refused by it.
#[derive(Clone, Copy, Debug, PartialEq, Eq, Hash)]
pub struct Unlisted {
    pub number: u8,
    ghost unlisted: { is_unlisted number ≡ true },
}
