//! The arguments of `gw ask`.

ghost use Rattle.std.specs.Prelude.{◌≤◌, IfOk};
ghost use Rattle.gw_table.specs.Table.{Fits};

use crate::form::wrong;
use crate::forms::ASK;
use clap::{ArgMatches, Error};
use gw_ledger::MAX_PORTS;
use gw_table::{Question, Span};
use std::alloc::{AllocError, Global};

/// The greatest parameter group number, of 18 bits (SAE J1939-21).
const GREATEST_GROUP: u32 = 262143;

/// The greatest address.
const GREATEST_ADDRESS: u32 = 255;

/// The greatest number of a port.
const GREATEST_PORT: u32 = MAX_PORTS as u32 - 1;

/// What the arguments behind `ask` ask of a table.
pub fn asked_question(alloc: Global, found: &ArgMatches) -> Result<Question, Error> {
    Ok(Question {
        pgn: asked_span(alloc, found, "pgn", GREATEST_GROUP)?,
        source: asked_span(alloc, found, "source", GREATEST_ADDRESS)?,
        destination: asked_span(alloc, found, "destination", GREATEST_ADDRESS)?,
        from: asked_span(alloc, found, "from", GREATEST_PORT)?,
    })
}

/// The range of an option, if it is given.
fn asked_span(
    alloc: Global,
    found: &ArgMatches,
    option: &str,
    greatest: u32,
) -> Result<Option<Span>, Error> {
    let Some(value) = found.get_str(option) else {
        return Ok(None);
    };
    match named_span(value, greatest) {
        Ok(span) => Ok(Some(span)),
        Err(fault) => {
            let text = told(alloc, option, value, greatest, fault)?;
            Err(wrong(alloc, &ASK, &text))
        }
    }
}

/// Why a value names no range.
#[derive(Clone, Copy)]
enum SpanFault {
    NoNumber,
    /// A number is above the greatest of its field.
    TooGreat,
    /// The first number is above the second.
    Descending(Span),
}

/// The range that a value names: a number, or the least and the greatest with `-` between them.
fn named_span(value: &str, greatest: u32) -> Result<Span, SpanFault>
    ensures { IfOk result (Fits greatest) }
{
    let (low, high) = match value.split_once('-') {
        Some((low, high)) => (number(low), number(high)),
        None => (number(value), number(value)),
    };
    let (Some(low), Some(high)) = (low, high) else {
        return Err(SpanFault::NoNumber);
    };
    if low > greatest || high > greatest {
        Err(SpanFault::TooGreat)
    } else if low > high {
        Err(SpanFault::Descending(Span { low, high }))
    } else {
        Ok(Span { low, high })
    }
}

/// The number that a value is, as tables write them: decimal, or hexadecimal behind `0x`, octal behind `0o`, binary behind `0b`.
fn number(value: &str) -> Option<u32> {
    let (base, digits) = match value.split_at_checked(2) {
        Some(("0x", digits)) => (16, digits),
        Some(("0o", digits)) => (8, digits),
        Some(("0b", digits)) => (2, digits),
        _ => (10, value),
    };
    digits_value(digits, base)
}

/// The number that digits say, of which two may have one `_` between them.
fn digits_value(digits: &str, base: u32) -> Option<u32>
    requires least { 2 ≤ base }
    requires most { base ≤ 36 }
{
    let mut value: u32 = 0;
    let mut is_behind_digit = false;
    for c in digits.chars() {
        if c == '_' && is_behind_digit {
            is_behind_digit = false;
        } else {
            value = value.checked_mul(base)?.checked_add(c.to_digit(base)?)?;
            is_behind_digit = true;
        }
    }
    is_behind_digit.then_some(value)
}

/// What is told of a value that names no range of an option.
fn told(
    alloc: Global,
    option: &str,
    value: &str,
    greatest: u32,
    fault: SpanFault,
) -> Result<String, AllocError> {
    match fault {
        SpanFault::NoNumber => format!(in alloc;
            "invalid value '{value}' for '--{option}': write a number, or two with `-` between them, from 0 to {greatest}; \
            hexadecimal digits stand behind `0x`"
        ),
        SpanFault::TooGreat => format!(in alloc;
            "invalid value '{value}' for '--{option}': the greatest number is {greatest}"
        ),
        SpanFault::Descending(Span { low, high }) => format!(in alloc;
            "invalid value '{value}' for '--{option}': the smaller number stands first, `{high}-{low}`"
        ),
    }
}
