// A library and the program that it is joined to, once each passed 2 to 12 and 26.
ghost use Rattle.std.specs.Prelude.{◌≡◌};
ghost use Rattle.rules.specs.Answers.{Accepted};
ghost use Rattle.rules.specs.WellFormed.{well_formed};

use table::Table;

#[derive(Clone, Copy)]
pub(crate) struct Both<'a> {
    pub(crate) library: Table<'a>,
    pub(crate) program: Table<'a>,
    ghost library_formed: { well_formed library.bytes.now ≡ Accepted },
    ghost program_formed: { well_formed program.bytes.now ≡ Accepted },
}

impl<'a> Both<'a> {
    pub(crate) fn of(library: &'a [u8], program: &'a [u8]) -> Both<'a>
        requires { (well_formed library.now ≡ Accepted) × (well_formed program.now ≡ Accepted) }
        ensures { (result.library.bytes.now ≡ library.now) × (result.program.bytes.now ≡ program.now) }
    {
        Both {
            library: Table::of(library),
            program: Table::of(program),
        }
    }
}
