// The generated lines, by their numbers.
ghost use Rattle.std.specs.Prelude.{◌≡◌, ◌<◌, ◌++◌, IfOk, OnOk};
ghost use Rattle.drill_lines.specs.Generated.{generated, product_line, line_at, last_line, result_word};

use crate::record::{
    push_check, push_deprecation, push_entry, push_item, push_restore, push_search, push_statement,
    push_verdict,
};
use cpe_rows::Memory;
use itoa::Buffer;
use line_session::Page;
use std::alloc::{AllocError, Global};

/// The most lines that are generated.
pub const MOST_LINES: u32 = 800_000;

// The number of lines for each product.
const LINES: usize = 8;

// The number of vendors of all products.
const VENDORS: usize = 50;

// The number of checks to which all statements refer.
const CHECKS: usize = 63;

/// Line `k`, counted from 0, without a newline.
///
/// Each product has eight lines, in this order: its first version as an entry; its second version as an entry; its
/// first version as an item; a statement about the second version; the result of a check; the deprecation of the
/// first version for the second; a search; and a last line. For one product the last line asks for the verdict of the
/// statement, and for the next product it restores the first version, in turn.
///
/// # Errors
/// Only if memory runs out.
pub fn generated(alloc: Global, k: u32) -> Result<Vec<u8>, Memory>
    requires { k < MOST_LINES }
    ensures { IfOk result (λ line. line.items ≡ generated k) }
{
    let mut page = Page::new(alloc);
    push_generated(&mut page, k as usize)?;
    Ok(page.into_bytes())
}

/// Appends line `k`, counted from 0, to the page, without a newline.
#[tactic(auto, unfolding(crate::specs::Generated::generated))]
pub fn push_generated(page: &mut Page, k: usize) -> Result<(), AllocError>
    ensures { OnOk result (page.new ≡ page.old ++ generated k) }
{
    push_of_product(page, k % LINES, k / LINES)
}

fn push_of_product(page: &mut Page, place: usize, number: usize) -> Result<(), AllocError>
    ensures { OnOk result (page.new ≡ page.old ++ product_line place number) }
{
    let mut vendor = Buffer::new();
    let mut product = Buffer::new();
    let mut check = Buffer::new();
    push_at(
        page,
        place,
        number,
        vendor.format(number % VENDORS).as_bytes(),
        product.format(number).as_bytes(),
        check.format(number % CHECKS).as_bytes(),
    )
}

fn push_at(
    page: &mut Page,
    place: usize,
    number: usize,
    vendor: &[u8],
    product: &[u8],
    check: &[u8],
) -> Result<(), AllocError>
    ensures { OnOk result (page.new ≡ page.old ++ line_at place number vendor.now product.now check.now) }
{
    match place {
        0 => push_entry(page, vendor, product, b"1.0"),
        1 => push_entry(page, vendor, product, b"2.0"),
        2 => push_item(page, vendor, product),
        3 => push_statement(page, vendor, product, check),
        4 => push_check(page, check, result_word(number % 4)),
        5 => push_deprecation(page, vendor, product),
        6 => push_search(page, vendor, product),
        _ => push_last(page, number, vendor, product),
    }
}

fn push_last(
    page: &mut Page,
    number: usize,
    vendor: &[u8],
    product: &[u8],
) -> Result<(), AllocError>
    ensures { OnOk result (page.new ≡ page.old ++ last_line number vendor.now product.now) }
{
    if number % 2 == 0 {
        push_verdict(page, product)
    } else {
        push_restore(page, vendor, product)
    }
}

#[tactic(auto, unfolding(crate::specs::Generated::result_word))]
fn result_word(turn: usize) -> &'static [u8]
    ensures { result.now ≡ result_word turn }
{
    match turn {
        0 => b"TRUE",
        1 => b"FALSE",
        2 => b"ERROR",
        _ => b"UNKNOWN",
    }
}
