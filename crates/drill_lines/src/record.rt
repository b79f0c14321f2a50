// The records of a product. The numbers of the product, its vendor and its check are passed as texts.
ghost use Rattle.std.specs.Prelude.{◌≡◌, ◌++◌, OnOk, flat_map};
ghost use Rattle.drill_lines.specs.Generated.{entry_record, item_record, statement_record, check_record, deprecation_record, search_record, verdict_record, restore_record};

use line_session::Page;
use std::alloc::AllocError;

// Appends texts to the page, in order.
fn push_all(page: &mut Page, texts: &[&[u8]]) -> Result<(), AllocError>
    ensures { OnOk result (page.new ≡ page.old ++ flat_map (λ text. text.now) texts.now) }
{
    for text in texts {
        page.push(text)?;
    }
    Ok(())
}

/// Appends the record that adds a version of the product to the dictionary.
#[tactic(auto, unfolding(crate::specs::Generated::entry_record))]
pub fn push_entry(
    page: &mut Page,
    vendor: &[u8],
    product: &[u8],
    version: &[u8],
) -> Result<(), AllocError>
    ensures { OnOk result (page.new ≡ page.old ++ entry_record vendor.now product.now version.now) }
{
    push_all(
        page,
        &[
            b"{\"do\":\"entry\",\"name\":\"cpe:2.3:a:v",
            vendor,
            b":p",
            product,
            b":",
            version,
            b":*:*:*:*:*:*:*\",\"title\":\"p",
            product,
            b" ",
            version,
            b"\"}",
        ],
    )
}

/// Appends the record that adds an item: the product's first version is installed.
#[tactic(auto, unfolding(crate::specs::Generated::item_record))]
pub fn push_item(page: &mut Page, vendor: &[u8], product: &[u8]) -> Result<(), AllocError>
    ensures { OnOk result (page.new ≡ page.old ++ item_record vendor.now product.now) }
{
    push_all(
        page,
        &[
            b"{\"do\":\"item\",\"name\":\"cpe:2.3:a:v",
            vendor,
            b":p",
            product,
            b":1.0:*:*:*:*:*:*:*\"}",
        ],
    )
}

/// Appends the record that adds a statement. Its test asks if the second version is installed, or if a check says so.
#[tactic(auto, unfolding(crate::specs::Generated::statement_record))]
pub fn push_statement(
    page: &mut Page,
    vendor: &[u8],
    product: &[u8],
    check: &[u8],
) -> Result<(), AllocError>
    ensures { OnOk result (page.new ≡ page.old ++ statement_record vendor.now product.now check.now) }
{
    push_all(
        page,
        &[
            b"{\"do\":\"statement\",\"id\":\"s",
            product,
            b"\",\"mode\":\"follow\",\"test\":{\"op\":\"OR\",\"of\":[{\"fact\":\"cpe:2.3:a:v",
            vendor,
            b":p",
            product,
            b":2.*:*:*:*:*:*:*:*\"},{\"check\":{\"system\":\"s\",\"href\":\"h\",\"id\":\"c",
            check,
            b"\"}}]}}",
        ],
    )
}

/// Appends the record that adds the result of a check.
#[tactic(auto, unfolding(crate::specs::Generated::check_record))]
pub fn push_check(page: &mut Page, check: &[u8], word: &[u8]) -> Result<(), AllocError>
    ensures { OnOk result (page.new ≡ page.old ++ check_record check.now word.now) }
{
    push_all(
        page,
        &[
            b"{\"do\":\"check\",\"system\":\"s\",\"href\":\"h\",\"id\":\"c",
            check,
            b"\",\"result\":\"",
            word,
            b"\"}",
        ],
    )
}

/// Appends the record that deprecates the first version. Its successor is the second version.
#[tactic(auto, unfolding(crate::specs::Generated::deprecation_record))]
pub fn push_deprecation(page: &mut Page, vendor: &[u8], product: &[u8]) -> Result<(), AllocError>
    ensures { OnOk result (page.new ≡ page.old ++ deprecation_record vendor.now product.now) }
{
    push_all(
        page,
        &[
            b"{\"do\":\"deprecate\",\"name\":\"cpe:2.3:a:v",
            vendor,
            b":p",
            product,
            b":1.0:*:*:*:*:*:*:*\",\"kind\":\"NAME_CORRECTION\",\"successors\":[\"cpe:2.3:a:v",
            vendor,
            b":p",
            product,
            b":2.0:*:*:*:*:*:*:*\"],\"date\":\"2024-01-01\"}",
        ],
    )
}

/// Appends a search for the vendor's entries whose product begins with the text of this product.
#[tactic(auto, unfolding(crate::specs::Generated::search_record))]
pub fn push_search(page: &mut Page, vendor: &[u8], product: &[u8]) -> Result<(), AllocError>
    ensures { OnOk result (page.new ≡ page.old ++ search_record vendor.now product.now) }
{
    push_all(
        page,
        &[
            b"{\"do\":\"search\",\"name\":\"cpe:2.3:a:v",
            vendor,
            b":p",
            product,
            b"*:*:*:*:*:*:*:*:*\"}",
        ],
    )
}

/// Appends the question for the verdict of the statement.
#[tactic(auto, unfolding(crate::specs::Generated::verdict_record))]
pub fn push_verdict(page: &mut Page, product: &[u8]) -> Result<(), AllocError>
    ensures { OnOk result (page.new ≡ page.old ++ verdict_record product.now) }
{
    push_all(page, &[b"{\"do\":\"verdict\",\"id\":\"s", product, b"\"}"])
}

/// Appends the record that makes the first version active again.
#[tactic(auto, unfolding(crate::specs::Generated::restore_record))]
pub fn push_restore(page: &mut Page, vendor: &[u8], product: &[u8]) -> Result<(), AllocError>
    ensures { OnOk result (page.new ≡ page.old ++ restore_record vendor.now product.now) }
{
    push_all(
        page,
        &[
            b"{\"do\":\"restore\",\"name\":\"cpe:2.3:a:v",
            vendor,
            b":p",
            product,
            b":1.0:*:*:*:*:*:*:*\",\"date\":\"2024-01-02\"}",
        ],
    )
}
