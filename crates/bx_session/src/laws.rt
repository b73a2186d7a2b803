ghost use Rattle.bx_session.specs.Filing.{FilesAlike};
ghost use Rattle.bx_session.specs.Numbers.{NumbersCount, NumbersStep};

/// Proves that each answer has the place of the entry that gives it.
pub fn answer_has_place_of_its_entry()
    ensures { FilesAlike }
{}

/// Proves that a session forms at most one batch for each entry.
pub fn entry_forms_at_most_one_batch()
    ensures { NumbersStep }
{}

/// Proves that a session forms no more batches than there are entries.
pub fn batches_at_most_entries()
    ensures { NumbersCount }
{}
