//! Commands and their options as data, and what `clap` makes of them.

use clap::error::ErrorKind;
use clap::{Arg, ArgAction, ArgGroup, Command, Error, value_parser};
use gw_ledger::MAX_PORTS;
use std::alloc::{AllocError, Global};

/// A command, and what its help shows.
pub(crate) struct Form<'a> {
    pub name: &'a str,
    /// What it does.
    pub about: &'a str,
    /// How it is written.
    pub usage: &'a str,
    /// What stands behind its options, above all an example.
    pub example: &'a str,
    pub groups: &'a [Group<'a>],
    pub options: &'a [Opt<'a>],
}

/// Options under one name.
pub(crate) struct Group<'a> {
    pub name: &'a str,
    pub members: &'a [&'a str],
    /// Whether one at least must be given.
    pub is_required: bool,
    /// Whether more than one may be given.
    pub is_multiple: bool,
}

/// An option of a command, or a positional argument.
pub(crate) struct Opt<'a> {
    /// The name by which it is asked for.
    pub name: &'a str,
    pub written: Written<'a>,
    pub takes: Takes<'a>,
    pub help: &'a str,
    pub presence: Presence<'a>,
    /// The options and groups that must be given with it.
    pub needs: &'a [&'a str],
    /// Those that must not.
    pub conflicts: &'a [&'a str],
}

/// How an option is written.
#[derive(Clone, Copy)]
pub(crate) enum Written<'a> {
    /// By its name, behind `--`.
    ByName,
    /// By another name.
    As(&'a str),
    /// By its place among the arguments.
    ByPlace,
}

/// What an option takes. Help calls a value by the name that stands here.
#[derive(Clone, Copy)]
pub(crate) enum Takes<'a> {
    /// No value: it is set or is not.
    Nothing,
    Value(&'a str),
    /// A value each time that it is given.
    Values(&'a str),
    /// The number of a port.
    Port(&'a str),
    /// A number, the least of which stands before the greatest.
    Number(&'a str, i64, i64),
    /// One of these values.
    OneOf(&'a str, &'a [&'a str]),
}

/// Whether an option must be given.
#[derive(Clone, Copy)]
pub(crate) enum Presence<'a> {
    Optional,
    Required,
    /// Where another one is not.
    RequiredWithout(&'a str),
}

/// An option that is set or is not. Other options take from it what they do not say of themselves.
pub(crate) const FLAG: Opt<'static> = Opt {
    name: "",
    written: Written::ByName,
    takes: Takes::Nothing,
    help: "",
    presence: Presence::Optional,
    needs: &[],
    conflicts: &[],
};

/// The command of a form, as `clap` reads it and shows its help.
pub(crate) fn command<'a>(alloc: Global, form: &Form<'a>) -> Result<Command<'a>, AllocError> {
    let groups = groups(alloc, form.groups)?;
    let args = args(alloc, form.options)?;
    bare(alloc, form).groups(groups)?.args(args)
}

/// The command without its groups and options.
fn bare<'a>(alloc: Global, form: &Form<'a>) -> Command<'a> {
    Command::new(alloc, form.name)
        .about(form.about)
        .override_usage(form.usage)
        .after_help(form.example)
}

/// `clap`'s error with this text, and the usage of a command.
pub(crate) fn wrong(alloc: Global, form: &Form, text: &str) -> Error {
    match wrong_in(alloc, form, text) {
        Ok(error) => error,
        Err(AllocError) => Error::from(AllocError),
    }
}

fn wrong_in(alloc: Global, form: &Form, text: &str) -> Result<Error, AllocError> {
    command(alloc, form)?.error(ErrorKind::ValueValidation, text)
}

fn groups<'a>(alloc: Global, groups: &[Group<'a>]) -> Result<Vec<ArgGroup<'a>>, AllocError> {
    let mut made = Vec::new(alloc);
    for group in groups {
        made.push(
            ArgGroup::new(alloc, group.name)
                .args(group.members)?
                .required(group.is_required)
                .multiple(group.is_multiple),
        )?;
    }
    Ok(made)
}

fn args<'a>(alloc: Global, options: &[Opt<'a>]) -> Result<Vec<Arg<'a>>, AllocError> {
    let mut made = Vec::new(alloc);
    for option in options {
        made.push(arg(alloc, option)?)?;
    }
    Ok(made)
}

/// The option, as `clap` reads it and shows its help.
fn arg<'a>(alloc: Global, option: &Opt<'a>) -> Result<Arg<'a>, AllocError> {
    let arg = Arg::new(alloc, option.name).help(option.help);
    let arg = taking(named(arg, option), option.takes)
        .requires_all(option.needs)?
        .conflicts_with_all(option.conflicts)?;
    present(arg, option.presence)
}

fn named<'a>(arg: Arg<'a>, option: &Opt<'a>) -> Arg<'a> {
    match option.written {
        Written::ByName => arg.long(option.name),
        Written::As(name) => arg.long(name),
        Written::ByPlace => arg,
    }
}

fn taking<'a>(arg: Arg<'a>, takes: Takes<'a>) -> Arg<'a> {
    match takes {
        Takes::Nothing => arg.action(ArgAction::SetTrue),
        Takes::Value(value) => arg.value_name(value),
        Takes::Values(value) => arg.value_name(value).action(ArgAction::Append),
        Takes::Port(value) => arg
            .value_name(value)
            .value_parser(value_parser!(u8).range(0..=MAX_PORTS as i64 - 1)),
        Takes::Number(value, least, most) => {
            arg.value_name(value)
                .value_parser(value_parser!(u32).range(least..=most))
        }
        Takes::OneOf(value, values) => arg.value_name(value).value_parser(values),
    }
}

fn present<'a>(arg: Arg<'a>, presence: Presence<'a>) -> Result<Arg<'a>, AllocError> {
    match presence {
        Presence::Optional => Ok(arg),
        Presence::Required => Ok(arg.required(true)),
        Presence::RequiredWithout(other) => arg.required_unless_present(other),
    }
}
