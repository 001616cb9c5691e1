//! Runs the programs of docs/GUIDE.md, one after the other. Each module is a whole program of the page but for the `pub` of its
//! `main`.
#![tactic(auto)]

mod captures;
mod errors;
mod first_search;
mod functions;
mod grammar;
mod iteration;
mod limits;
mod options;
mod splitting;
mod templates;
mod tokenizer;
mod tree;
mod untrusted;

use anyhow::Result;

fn main(rt: HostRuntime) -> Result<()> {
    println!(rt; "== first_search")?;
    first_search::main(rt.clone()?)?;
    println!(rt; "== captures")?;
    captures::main(rt.clone()?)?;
    println!(rt; "== iteration")?;
    iteration::main(rt.clone()?)?;
    println!(rt; "== templates")?;
    templates::main(rt.clone()?)?;
    println!(rt; "== functions")?;
    functions::main(rt.clone()?)?;
    println!(rt; "== splitting")?;
    splitting::main(rt.clone()?)?;
    println!(rt; "== tokenizer")?;
    tokenizer::main(rt.clone()?)?;
    println!(rt; "== options")?;
    options::main(rt.clone()?)?;
    println!(rt; "== limits")?;
    limits::main(rt.clone()?)?;
    println!(rt; "== errors")?;
    errors::main(rt.clone()?)?;
    println!(rt; "== untrusted")?;
    untrusted::main(rt.clone()?)?;
    println!(rt; "== grammar")?;
    grammar::main(rt.clone()?)?;
    println!(rt; "== tree")?;
    tree::main(rt)
}
