//! Words read as an order.

ghost use Rattle.std.specs.Prelude.{◌≡◌, [], IfOk, IfErr, MatchResult, Some, map, option_map};
ghost use Rattle.clap.specs.Words.{kind_of, subcommand_rows_of};
ghost use Rattle.clap.specs.declared.error.kind.ErrorKind.TheVariants.{OutOfMemory};
ghost use Rattle.h5_args.specs.Words.{Taken, wanted_by_words, faults, wanted_in, wanted_by};
ghost use Rattle.h5_args.specs.Faults.{IsFaultOf, IsOfKind};
ghost use Rattle.h5_args.specs.Order.{wanted_by_order};
ghost use Rattle.h5_args.specs.declared.orders.OrderFault.TheVariants.{NoMemory};

use crate::command::h5i;
use crate::orders::{Order, OrderFault};
use clap::error::ErrorKind;
use clap::{ArgMatches, Error};
use std::alloc::Global;
use std::convert::AsStr;

/// The order of this name, where there is such an order and it is given what it needs.
fn order_of<'a>(name: &str, file: Option<&'a str>, path: Option<&'a str>) -> Option<Order<'a>>
    ensures { option_map wanted_by_order result
        ≡ wanted_by name.now (option_map (λ t. t.now) file.entry) (option_map (λ t. t.now) path.entry) }
{
    let file = file?;
    match name {
        "new" => Some(Order::New { file }),
        "ls" => Some(Order::Ls { file }),
        "dump" => Some(Order::Dump { file, path: path? }),
        "run" => Some(Order::Run { file }),
        _ => None,
    }
}

fn order_in<'a>(matches: &ArgMatches<'a>) -> Option<Order<'a>>
    ensures { option_map wanted_by_order result ≡ wanted_in (subcommand_rows_of matches.now) }
{
    let (name, inner) = matches.subcommand()?;
    order_of(name, inner.get_str("FILE"), inner.get_str("PATH"))
}

/// What clap says of words that it does not take.
fn fault_of(alloc: Global, error: &Error) -> OrderFault
    ensures memory { kind_of error.now ≡ OutOfMemory → result ≡ NoMemory }
    ensures kind { IsOfKind (kind_of error.now) result }
{
    if error.kind() == ErrorKind::OutOfMemory {
        return OrderFault::NoMemory;
    }
    match format!(in alloc; "{error}") {
        Ok(text) if error.exit_code() == 0 => OrderFault::Help(text),
        Ok(text) => OrderFault::Wrong(text),
        Err(_) => OrderFault::NoMemory,
    }
}

/// What the words ask for. The first word is the program's name.
///
/// # Errors
///
/// - `Help`: the words ask for help or the version; it has clap's text.
/// - `Wrong`: the command does not take the words; it has clap's text of what is wrong.
/// - `NoMemory`: memory is refused. Words that the command takes are refused by this alone.
pub fn order<'a, S: AsStr>(alloc: Global, words: &'a [S]) -> Result<Order<'a>, OrderFault>
    ensures order { IfOk result (λ o.
        Some (wanted_by_order o) ≡ wanted_by_words (map S.text words.entry.now)) }
    // Words that the command takes are refused for want of memory alone.
    ensures only { Taken (map S.text words.entry.now) → IfErr result (λ e. e ≡ NoMemory) }
    // An order comes only of words without a fault, and others are refused for one that they have.
    ensures faults { MatchResult result (λ _. faults (map S.text words.entry.now) ≡ [])
        (IsFaultOf (faults (map S.text words.entry.now))) }
{
    let command = h5i(alloc)?;
    match command.try_get_matches_from(words) {
        Ok(matches) => match order_in(&matches) {
            Some(order) => Ok(order),
            None => unreachable!(),
        },
        Err(error) => Err(fault_of(alloc, &error)),
    }
}
