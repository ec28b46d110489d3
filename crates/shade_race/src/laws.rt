//! The laws of the book.

ghost use Rattle.shade_race.specs.Word.{CellsFollow, PresentTells, SixSuffice};
ghost use Rattle.shade_race.specs.Meaning.{RecordIsLeast, NoRecordNoRace, RacesAreLeast};
ghost use Rattle.shade_race.specs.History.{NoteLeads, BarrierLeads, RacesTell};

/// The cells of a word after one more access are those before with that access noted.
pub fn cells_follow()
    ensures { CellsFollow }
{}

/// The first access with which an access races is the least of those that are kept.
pub fn six_suffice()
    ensures { SixSuffice }
{}

/// A book that stood for a history stands for it with a touch added once that is noted.
pub fn note_leads()
    ensures { NoteLeads }
{}

/// A book that stood for a history stands for it with a barrier added once that is passed.
pub fn barrier_leads()
    ensures { BarrierLeads }
{}

/// The races of a book are those of its history.
pub fn races_tell()
    ensures { RacesTell }
{}

/// The races of a book are those of its history: in order of root and word, of each word that any two accesses race at, and of no other, the pair
/// with the least second step, and of those the one with the least first.
pub fn races_are_least()
    ensures { RacesAreLeast }
{}

/// The recorded race of a word is the pair that races with the least second step, and of those the one with the least first.
pub fn record_is_least()
    ensures { RecordIsLeast }
{}

/// Where no race of a word is recorded, no two of its accesses race.
pub fn no_record_no_race()
    ensures { NoRecordNoRace }
{}

/// What is kept of a word tells the firsts of the present epoch.
pub fn present_tells()
    ensures { PresentTells }
{}
