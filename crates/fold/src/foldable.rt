// A journal that may be folded, as what a fold makes of it takes it.
ghost use Rattle.std.specs.Prelude.{◌≡◌, false};
ghost use Rattle.journal.specs.Journal.{journal_of, standing};
ghost use Rattle.calls.specs.Checks.{is_no_fold};

use judge::sound::Sound;

// At least four reads stand, and no F does.
#[derive(Clone, Copy)]
pub(crate) struct Foldable<'a> {
    pub journal: Sound<'a>,
    ghost may_fold: { is_no_fold (standing (journal_of journal.area.now).entries) ≡ false },
}
