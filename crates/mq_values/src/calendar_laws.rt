//! Laws of the calendar (docs/LANGUAGE.md, "Dates"). Each holds of all dates and ordinals, and its function does
//! nothing.
ghost use Rattle.std.specs.Prelude.{◌≡◌, ◌<◌, ℕ, IsTrue};
ghost use Rattle.mq_values.specs.Calendar.{day_of_month, is_date, is_ordinal, month_of, ordinal_of, year_of};

/// Dates and ordinals are one to one: the ordinal of a date is one, and has its year, its month and its day; and
/// the year, the month and the day of an ordinal are a date, which has that ordinal.
pub fn dates_and_ordinals_are_one_to_one()
    ensures there { (y m d : ℕ) → IsTrue (is_date y m d) → IsTrue (is_ordinal (ordinal_of y m d)) }
    ensures year { (y m d : ℕ) → IsTrue (is_date y m d) → year_of (ordinal_of y m d) ≡ y }
    ensures month { (y m d : ℕ) → IsTrue (is_date y m d) → month_of (ordinal_of y m d) ≡ m }
    ensures day { (y m d : ℕ) → IsTrue (is_date y m d) → day_of_month (ordinal_of y m d) ≡ d }
    ensures back { (o : ℕ) → IsTrue (is_ordinal o) → IsTrue (is_date (year_of o) (month_of o) (day_of_month o)) }
    ensures same { (o : ℕ) → IsTrue (is_ordinal o) → ordinal_of (year_of o) (month_of o) (day_of_month o) ≡ o }
{}

/// A later date has a greater ordinal: one of a later year, or of a later month of the same year, or a later day
/// of the same month.
pub fn ordinals_ascend_as_dates_do()
    ensures years { (y m d k n e : ℕ) → IsTrue (is_date y m d) → IsTrue (is_date k n e)
        → y < k → ordinal_of y m d < ordinal_of k n e }
    ensures months { (y m d n e : ℕ) → IsTrue (is_date y m d) → IsTrue (is_date y n e)
        → m < n → ordinal_of y m d < ordinal_of y n e }
    ensures days { (y m d e : ℕ) → IsTrue (is_date y m d) → IsTrue (is_date y m e)
        → d < e → ordinal_of y m d < ordinal_of y m e }
{}
