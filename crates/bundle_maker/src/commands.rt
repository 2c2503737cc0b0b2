//! The commands of a made bundle.

ghost use Rattle.std.specs.Prelude.{◌≡◌, ◌<◌, ◌+◌, ◌++◌, ◌/◌, ◌^◌, OnOk};
ghost use Rattle.std.specs.Fmt.{decimal};
ghost use Rattle.bundle_maker.specs.Generated.{two_digits, two_numbers, amount_command, day_command, class_command, drawn_command, command_line};

use lc_base::push_number;
use std::alloc::AllocError;

/// How many commands of the bundle come first, each of which makes an object.
pub const FIRST_COMMANDS: u32 = 4;

/// Adds the line of a command: its number in the bundle, and the number that is drawn for it.
pub fn push_command(text: &mut Vec<u8>, i: u32, number: u64) -> Result<(), AllocError>
    ensures { OnOk result (text.new.items ≡ text.old.items ++ command_line i number) }
{
    if i < FIRST_COMMANDS {
        text.extend_from_slice(b"new a LC_ALL us")?;
    } else {
        push_drawn(text, number >> 33)?;
    }
    text.push(b'\n')?;
    Ok(())
}

/// Adds the command of a draw: the draw modulo 8 says which, and the rest what is in it.
fn push_drawn(text: &mut Vec<u8>, draw: u64) -> Result<(), AllocError>
    ensures { OnOk result (text.new.items ≡ text.old.items ++ drawn_command draw) }
{
    let rest = draw / 8;
    match draw % 8 {
        0 => text.extend_from_slice(b"new a LC_ALL us"),
        1 => text.extend_from_slice(b"new a LC_ALL fr a"),
        2 => text.extend_from_slice(b"use a"),
        3 => text.extend_from_slice(b"free a"),
        4 => push_amount(text, rest % 1_000_000),
        5 => push_day(text, rest % 31),
        6 => text.extend_from_slice(b"info CRNCYSTR"),
        _ => push_class(text, rest % 256),
    }
}

/// Adds a `money` command of so many hundredths.
fn push_amount(text: &mut Vec<u8>, hundredths: u64) -> Result<(), AllocError>
    ensures { OnOk result (text.new.items ≡ text.old.items ++ amount_command hundredths) }
{
    text.extend_from_slice(b"money \"%n\" ")?;
    push_number(text, u128::from(hundredths / 100))?;
    text.push(b'.')?;
    push_two_digits(text, hundredths % 100)
}

/// Adds a `time` command of a day of January 2021, from 0.
fn push_day(text: &mut Vec<u8>, day: u64) -> Result<(), AllocError>
    requires { day < 31 }
    ensures { OnOk result (text.new.items ≡ text.old.items ++ day_command day) }
{
    text.extend_from_slice(b"time \"%c\" 2021-01-")?;
    push_two_digits(text, day + 1)?;
    text.extend_from_slice(b" 12:00:00 ")?;
    push_two_numbers(text, (day + 5) % 7, day)
}

/// Adds a `class` command of a value.
fn push_class(text: &mut Vec<u8>, value: u64) -> Result<(), AllocError>
    ensures { OnOk result (text.new.items ≡ text.old.items ++ class_command value) }
{
    text.extend_from_slice(b"class alpha ")?;
    push_number(text, u128::from(value))
}

/// Adds two numbers with a space between them.
fn push_two_numbers(text: &mut Vec<u8>, first: u64, second: u64) -> Result<(), AllocError>
    ensures { OnOk result (text.new.items ≡ text.old.items ++ two_numbers first second) }
{
    push_number(text, u128::from(first))?;
    text.push(b' ')?;
    push_number(text, u128::from(second))
}

/// Adds two decimal digits.
fn push_two_digits(text: &mut Vec<u8>, n: u64) -> Result<(), AllocError>
    requires { n < 100 }
    ensures { OnOk result (text.new.items ≡ text.old.items ++ two_digits n) }
{
    text.extend_from_slice(&[b'0' + (n / 10) as u8, b'0' + (n % 10) as u8])
}
