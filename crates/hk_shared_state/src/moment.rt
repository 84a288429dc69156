//! Moments as text.

use std::fmt;
use std::fmt::{Display, Formatter, Write};

/// A moment, in milliseconds behind the beginning of 1970. Its text is as `2026-12-01T09:12:45.123Z`.
#[derive(Clone, Copy, Debug, PartialEq, Eq)]
pub struct Moment(pub u64);

const SECOND: u64 = 1_000;

const MINUTE: u64 = 60 * SECOND;

const HOUR: u64 = 60 * MINUTE;

const DAY: u64 = 24 * HOUR;

// The days of 400 years, of 100, of 4 and of one. The calendar is the same again behind the first of these.
const ERA: u64 = 146_097;

const CENTURY: u64 = 36_524;

const FOUR_YEARS: u64 = 1_461;

const YEAR: u64 = 365;

// The days from the first of March of the year 0 to the beginning of 1970.
const BEFORE: u64 = 719_468;

// A day of the calendar.
#[derive(Clone, Copy)]
struct Date {
    year: u64,
    month: u64,
    day: u64,
}

// The day that is so many days behind the first of March of a year. Five months from March, and from August, have 153
// days; January and February belong to the next year.
fn date_behind(year: u64, days: u64) -> Date {
    let month = (5 * days.min(YEAR) + 2) / 153;
    let day = days.saturating_sub((153 * month + 2) / 5);
    if month < 10 {
        Date {
            year,
            month: month + 3,
            day: day.saturating_add(1),
        }
    } else {
        Date {
            year: year.saturating_add(1),
            month: month - 9,
            day: day.saturating_add(1),
        }
    }
}

// The day that is so many days behind the beginning of 1970. Years begin in March here, so that a leap day ends one.
fn date_of(days: u64) -> Date {
    let days = days.saturating_add(BEFORE);
    let in_era = days % ERA;
    let century = (in_era / CENTURY).min(3);
    let in_century = in_era.saturating_sub(CENTURY.saturating_mul(century));
    let four = in_century / FOUR_YEARS;
    let in_four = in_century % FOUR_YEARS;
    let one = (in_four / YEAR).min(3);
    let year = (days / ERA)
        .saturating_mul(400)
        .saturating_add(century.saturating_mul(100))
        .saturating_add(four.saturating_mul(4))
        .saturating_add(one);
    date_behind(year, in_four.saturating_sub(YEAR.saturating_mul(one)))
}

impl Display for Moment {
    fn fmt<W: Write>(&self, f: &mut Formatter<W>) -> fmt::Result {
        let Date { year, month, day } = date_of(self.0 / DAY);
        let hour = self.0 / HOUR % 24;
        let minute = self.0 / MINUTE % 60;
        let second = self.0 / SECOND % 60;
        let millis = self.0 % SECOND;
        write!(
            f,
            "{year:04}-{month:02}-{day:02}T{hour:02}:{minute:02}:{second:02}.{millis:03}Z"
        )
    }
}
