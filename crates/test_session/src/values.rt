//! Texts of answers.
use daig_graph::{SharedChain, Value};
use domain_laws::Domain;
use imp_slots::Layout;
use std::alloc::Global;
use std::test::Fail;

fn shown_chain(alloc: Global, chain: &SharedChain) -> Result<String, Fail> {
    let mut all = String::new(alloc);
    for site in chain.chain().sites() {
        all.push_str(&format!(in alloc; " {}", site.number())?)?;
    }
    Ok(all)
}

/// The text of a state, or the loop and the chain of an Over.
pub(crate) fn shown<D: Domain>(
    alloc: Global,
    domain: &D,
    layout: &Layout,
    value: &Value<D::State>,
) -> Result<String, Fail> {
    match value {
        Value::State(state) => {
            let text = domain.text(alloc, layout, state)?;
            Ok(String::from_utf8_lossy(alloc, text.as_slice())?)
        }
        Value::Over { head, chain } => {
            let chain = shown_chain(alloc, chain)?;
            Ok(format!(in alloc; "over {}{}", head.number(), chain)?)
        }
    }
}
