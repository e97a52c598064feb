//! Laws of all values: their order is total, and dates read back.
ghost use Rattle.tql_spec.specs.Calendar.{PartsAreDates, PartsReadBack};
ghost use Rattle.tql_value.specs.Points.{MomentsReadBack};
ghost use Rattle.tql_value.specs.Laws.{KindsAreOrdered, SameIsEqual, TextsLieByCharacters};

/// States that the values of each kind, with NULL, are totally ordered, NULL first, and that only equal values compare
/// as equal. The test of equality is true for equal values only.
pub fn order_is_total()
    ensures order { KindsAreOrdered }
    ensures equality { SameIsEqual }
{}

/// States that texts in the order of their bytes are in the order of their characters.
pub fn texts_lie_by_characters()
    ensures { TextsLieByCharacters }
{}

/// States that each day's parts are the date of that day, and that each date's day number has its parts. Each moment's
/// parts are the date and the time of that moment.
pub fn dates_read_back()
    ensures days { PartsAreDates }
    ensures dates { PartsReadBack }
    ensures moments { MomentsReadBack }
{}
