//! The laws of meters and of replays, each proved as the contract of a function that does nothing.
ghost use Rattle.std.specs.Prelude.{◌≡◌, List, All};
ghost use Rattle.moment_core.specs.declared.colour.Mode.TheVariants.{Aware};
ghost use Rattle.moment_core.specs.declared.column.Column.{Column};
ghost use Rattle.moment_core.specs.Colours.{IsNoBetter, output};
ghost use Rattle.moment_core.specs.Columns.{counts};
ghost use Rattle.moment_core.specs.Metering.{Offer, departures};
ghost use Rattle.envelope_core.specs.Curve.{KeepsCurve};
ghost use Rattle.meter_book_base.specs.Envelopes.{output_in};
ghost use Rattle.meter_book.specs.KeptColours.{
  GreenStaysGreen,
  GreenStaysGreenAt,
  YellowStaysYellow,
  YellowStaysYellowAt,
};
ghost use Rattle.meter_book.specs.Running.{ColoursAsBook, StandsAsBook};
ghost use Rattle.meter_book.specs.Laws.{
  AwareRowsNeverImprove,
  MetersStayFit,
  OpenedRowsKeepEnvelopes,
  OpeningMetersFit,
  RowsAreDepartures,
  RowsKeepEnvelopes,
  RowsStandInOrder,
  after_all,
};

use meter_book_base::Meter;

/// Whatever arrives at an aware meter of whatever kind, no packet leaves with a better colour than it came with
/// (RFC 2697 section 3).
pub fn aware_meters_never_improve<M: Meter>()
    ensures { (m : M) (offers : List Offer) → M.mode_of m ≡ Aware
        → All (λ d. IsNoBetter d.came d.left) (departures M.how m offers) }
{}

/// Whatever arrives at a meter of whatever kind, what leaves it green keeps its envelope of green, what leaves it green
/// or yellow that of all, and what leaves it yellow that of the excess (Cruz 1991, section II).
pub fn meters_keep_envelopes<M: Meter>()
    ensures { (m : M) (offers : List Offer) (column : Column) → M.fits m
        → KeepsCurve (output_in column (M.parameters_of m)) (output (counts column) (departures M.how m offers)) }
{}

/// A meter of whatever kind that fits does so after whatever arrives.
pub fn meters_go_on_fit<M: Meter>()
    ensures { (m : M) (offers : List Offer) → M.fits m → M.fits (after_all M.how m offers) }
{}

/// The rows of a replay are the departures of the meter.
pub fn rows_are_departures()
    ensures { RowsAreDepartures }
{}

/// What left green keeps the meter's envelope of green, what left green or yellow that of all, and what left yellow
/// that of the excess, by the moments that they were metered at (RFC 2697 section 3, RFC 2698 section 3, RFC 4115; Cruz
/// 1991, section II).
pub fn rows_keep_envelopes()
    ensures { RowsKeepEnvelopes }
{}

/// The rows of a meter that opened keep its envelopes.
pub fn opened_rows_keep_envelopes()
    ensures { OpenedRowsKeepEnvelopes }
{}

/// In the rows of an aware meter no packet leaves with a better colour than it came with (RFC 2697 section 3).
pub fn aware_rows_never_improve()
    ensures { AwareRowsNeverImprove }
{}

/// No row was metered before the row in front of it.
pub fn rows_stand_in_order()
    ensures { RowsStandInOrder }
{}

/// The buckets of a meter that opens are within their sizes.
pub fn opening_meters_fit()
    ensures { OpeningMetersFit }
{}

/// They stay within them, whatever arrives.
pub fn meters_stay_fit()
    ensures { MetersStayFit }
{}

/// A packet that comes green to an aware meter leaves it green, where green packets keep the committed rate and burst,
/// and with two rates also green and yellow ones together the peak rate and burst (RFC 2697 section 3, RFC 2698 section
/// 3, RFC 4115).
///
/// For the packets of one moment, in nanoseconds, it is enough that they do so in the windows that end then.
pub fn green_stays_green()
    ensures throughout { GreenStaysGreen }
    ensures at_moment { GreenStaysGreenAt }
{}

/// A packet that comes yellow to an aware meter leaves it yellow, where green packets leave green and what is held
/// against the bucket for yellow ones keeps its rate and its burst (RFC 2697 section 3, RFC 2698 section 3, RFC 4115).
///
/// For the packets of one moment, in nanoseconds, it is enough that this does so in the windows that end then. With a
/// single rate green packets may so come, while no yellow ones do, in a greater burst than the excess bucket's.
pub fn yellow_stays_yellow()
    ensures throughout { YellowStaysYellow }
    ensures at_moment { YellowStaysYellowAt }
{}

/// A running meter stands where the book of the same meter and the same arrivals does: meter, accounts and count.
pub fn running_meters_stand_as_books()
    ensures { StandsAsBook }
{}

/// The colours that a running meter answers are those of the rows of that book.
pub fn running_meters_colour_as_books()
    ensures { ColoursAsBook }
{}
