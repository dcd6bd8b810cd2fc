//! The user of a train that calls.

use er_base::NoMemory;
use er_users::Lister;
use std::alloc::Global;

// The user of an engine: it says three position reports.
pub(crate) fn position_reports(alloc: Global) -> Result<Lister, NoMemory> {
    let mut texts = Vec::with_capacity(alloc, 3)?;
    texts.push(Vec::from_slice(alloc, b"position-report-00000001".as_slice())?)?;
    texts.push(Vec::from_slice(alloc, b"position-report-00000002".as_slice())?)?;
    texts.push(Vec::from_slice(alloc, b"position-report-00000003".as_slice())?)?;
    Ok(Lister::new(texts))
}
