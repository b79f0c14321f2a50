// A call of `drop` drops each name, because this proves quickly. At the end of a scope, the proof would drop each of
// its eleven values in place.
ghost use Rattle.std.specs.Prelude.{◌≡◌, []};

use cpe_fs::lend_fs;
use cpe_name::{NameRef, Wfn, read_wfn, write_wfn};
use cpe_relation::covers;
use cpe_rows::{Edge, Memory, Pattern, Value, ValueRef};
use cpe_uri::{UriFault, bind_uri, lend_any, unbind_any};
use deprecation_graph::DeprecationGraph;
use std::alloc::Global;
use std::test::Fail;

// ---- what docs/LIBRARY.md shows

// Whether an advisory about `product` speaks of `installed`. Each is a formatted string or a URI.
fn speaks_of(alloc: Global, product: &[u8], installed: &[u8]) -> Result<bool, UriFault> {
    let product = unbind_any(alloc, product)?;
    let installed = unbind_any(alloc, installed)?;
    Ok(covers(&product, &installed))
}

#[test]
fn an_advisory_speaks_of_what_it_covers(rt: HostRuntime) -> Result<(), Fail> {
    let product = b"cpe:2.3:a:microsoft:internet_explorer:8.*:*:*:*:*:*:*:*";
    let beta = b"cpe:/a:microsoft:internet_explorer:8.0.6001:beta";
    let later = b"cpe:/a:microsoft:internet_explorer:9.0";
    assert!(rt; speaks_of(rt.alloc(), product, beta)?);
    assert!(rt; !speaks_of(rt.alloc(), product, later)?);
    Ok(())
}

// ---- calls that the program doesn't make

const TEXT: &[u8] =
    b"wfn:[part=\"a\",vendor=NA,product=\"??B\\.r??\",version=ANY,update=ANY,edition=ANY,language=\"fr\\-CA\",sw_edition=ANY,target_sw=\"b*\",target_hw=ANY,other=ANY]";

const LOWER: &[u8] =
    b"wfn:[part=\"a\",vendor=NA,product=\"??b\\.r??\",version=ANY,update=ANY,edition=ANY,language=\"fr\\-ca\",sw_edition=ANY,target_sw=\"b*\",target_hw=ANY,other=ANY]";

const URI: &[u8] = b"cpe:/a:-:%01%01b.r%01%01:::~~~b%02~~:fr-ca";

fn is_written(written: Result<Vec<u8>, Memory>, wanted: &[u8]) -> bool {
    match written {
        Ok(bytes) => bytes.as_slice() == wanted,
        Err(_) => false,
    }
}

fn is_lowered(alloc: Global, name: &Wfn) -> bool {
    match name.lower(alloc) {
        Ok(lower) => {
            let is_so = is_written(write_wfn(alloc, &lower), LOWER)
                && is_written(bind_uri(alloc, &lower), URI);
            drop(lower);
            is_so
        }
        Err(_) => false,
    }
}

fn is_read(alloc: Global) -> bool {
    match read_wfn(alloc, TEXT) {
        Ok(name) => {
            let is_so = is_lowered(alloc, &name);
            drop(name);
            is_so
        }
        Err(_) => false,
    }
}

#[test]
fn a_name_is_read_lowered_and_written(rt: HostRuntime) {
    assert!(rt; is_read(rt.alloc()));
}

fn starred(alloc: Global, body: &[u8]) -> Value {
    match Pattern::new(alloc, Edge::Star, body, Edge::None) {
        Ok(text) => Value::Text(text),
        Err(_) => Value::Any,
    }
}

fn is_lowered_to(alloc: Global, value: &Value, lower: &Value) -> bool {
    match value.lower(alloc) {
        Ok(lowered) => lowered == *lower,
        Err(_) => false,
    }
}

fn has_lower_body(alloc: Global, text: &Pattern, body: &[u8]) -> bool {
    match text.lower(alloc) {
        Ok(lowered) => lowered.stem() == body,
        Err(_) => false,
    }
}

fn has_lower(alloc: Global, value: &Value, body: &[u8]) -> bool {
    match value {
        Value::Text(text) => has_lower_body(alloc, text, body),
        Value::Any | Value::Na => false,
    }
}

#[test]
fn a_value_is_lowered(rt: HostRuntime) {
    let upper = starred(rt.alloc(), b"Foo-BAR[");
    let lower = starred(rt.alloc(), b"foo-bar[");
    assert!(rt; is_lowered_to(rt.alloc(), &upper, &lower));
    assert!(rt; has_lower(rt.alloc(), &upper, b"foo-bar["));
}

// Whether there is no path from a node to another one, in a graph of two nodes without an edge.
fn reaches_none(alloc: Global, graph: &mut DeprecationGraph) -> bool
    requires { graph.old.nodes ≡ [] }
{
    if graph.reserve(2, 0).is_err() {
        return false;
    }
    let first = graph.add_node();
    let second = graph.add_node();
    graph.reaches(alloc, first, second) == Ok(false)
}

#[test]
fn a_node_reaches_none_without_an_edge(rt: HostRuntime) {
    let mut graph = DeprecationGraph::new(rt.alloc());
    let is_so = reaches_none(rt.alloc(), &mut graph);
    drop(graph);
    assert!(rt; is_so);
}

// ---- lent names: no clause says which names are lent

fn is_text(value: ValueRef<'_>, stem: &[u8]) -> bool {
    match value {
        ValueRef::Text(text) => text.stem == stem,
        ValueRef::Any | ValueRef::Na => false,
    }
}

fn is_lent(name: Result<Option<NameRef<'_>>, usize>, vendor: &[u8], other: &[u8]) -> bool {
    match name {
        Ok(Some(name)) => is_text(name.vendor, vendor) && is_text(name.other, other),
        Ok(None) | Err(_) => false,
    }
}

fn lends_none(said: &[u8]) -> bool {
    matches!(lend_any(said), Ok(None))
}

#[test]
fn bare_values_are_lent(rt: HostRuntime) {
    let fs = b"cpe:2.3:*:??a-z_09.:*:*:*:*:*:*:*:*:-x";
    let uri = b"CPE:/a:a-z_0~9.::::~-~~~~other";
    assert!(rt;
        is_lent(lend_fs(fs), b"a-z_09.", b"-x") && is_lent(lend_any(fs), b"a-z_09.", b"-x")
    );
    assert!(rt; is_lent(lend_any(uri), b"a-z_0~9.", b"other"));
    assert!(rt; lends_none(b"cpe:/a:v:Product"));
    assert!(rt; lends_none(b"cpe:2.3:a:hp:insight:7.4:*:*:*:*:*:\\(x\\):*"));
}
