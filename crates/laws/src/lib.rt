// The laws over whole runs, each as a contract.
#![tactic(auto)]

ghost use Rattle.laws.specs.Bench.{BenchCases, Rests};
ghost use Rattle.laws.specs.Entries.{TableEntries};
ghost use Rattle.laws.specs.Laws.{AnswersStand, CapturesStand, CopiesStand, CellsStand, UnfitStand, RefusedEventStands, RefusedCaptureStands, SamenessStands};

// The twelve bench cases come out as the rules say.
pub fn bench_cases()
    ensures { BenchCases }
{}

// Short runs that show each entry of the shared tables come out as the rules say.
pub fn table_entries()
    ensures { TableEntries }
{}

// The laws over chips at rest speak of some.
pub fn delivered_rests()
    ensures { Rests }
{}

// After every history each further event is answered as the journal says.
pub fn answers_stand()
    ensures { AnswersStand }
{}

// After every history each further capture draws the levels and the answer that the journal says.
pub fn captures_stand()
    ensures { CapturesStand }
{}

// After every history each further page copy is answered as the journal says, and changes nothing.
pub fn copies_stand()
    ensures { CopiesStand }
{}

// After every history the cells are the journal's, and a chip stays as fit as it was born.
pub fn cells_stand()
    ensures { CellsStand }
{}

// A chip that is born unfit refuses every call with its number, and stays as it was born.
pub fn unfit_stands()
    ensures { UnfitStand }
{}

// A refused event changes nothing.
pub fn refused_event_stands()
    ensures { RefusedEventStands }
{}

// A refused capture leaves what its records before the refused one did.
pub fn refused_capture_stands()
    ensures { RefusedCaptureStands }
{}

// Two chips at rest are alike exactly when their histories agree.
pub fn sameness_stands()
    ensures { SamenessStands }
{}
