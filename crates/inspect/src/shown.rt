// What a person reads of a frame.
use crate::account::Account;
use digest::batches::batch_digest;
use digest::fnv::Fnv1a;
use digest::interface::Digest;
use digest::truncated::Sha256;
use std::fmt;
use wire::faults::FrameFault;
use wire::kinds::{BATCH, Kind};
use wire::records::{Batch, Request, Sealed, Statement};

// The fields that the kind uses.
#[derive(Clone, Copy)]
struct Fields<'a>(&'a Statement);

impl<'a> fmt::Display for Fields<'a> {
    fn fmt<W: fmt::Write>(&self, f: &mut fmt::Formatter<W>) -> fmt::Result {
        let st = self.0;
        let epoch = st.epoch;
        let number = st.number;
        let value = st.digest.number();
        match st.kind {
            Kind::Request => write!(f, "timestamp {number}, payload {value:016x}"),
            Kind::Proposal | Kind::Prepare | Kind::Commit => write!(
                f,
                "epoch {epoch}, number {number}, digest {value:016x}"
            ),
            Kind::Checkpoint => write!(f, "number {number}, mark {value:016x}"),
            Kind::Stable => write!(f, "target epoch {epoch}, stable number {number}"),
            Kind::Held => {
                let held = st.held;
                write!(
                    f,
                    "target epoch {epoch}, number {number}, held epoch {held}, digest {value:016x}"
                )
            }
            _ => write!(f, "epoch {epoch}, number {number}, leader set {value:b}"),
        }
    }
}

// Lines are printed as they are made, each by `Display` of its parts.
pub(crate) fn show_statement(rt: &HostRuntime, line: u64, sealed: &Sealed) -> anyhow::Result<()> {
    let st = &sealed.statement;
    let kind = st.kind;
    let who = if kind == Kind::Request {
        "client"
    } else {
        "controller"
    };
    let signer = st.signer;
    let fields = Fields(st);
    let seal = sealed.seal;
    println!(rt; "{line}: {kind} by {who} {signer}: {fields}, seal {seal:016x}")?;
    Ok(())
}

fn show_digest<D: Digest>(
    rt: &HostRuntime,
    name: &str,
    digest: &D,
    batch: &Batch,
) -> anyhow::Result<()> {
    if let Ok(value) = batch_digest(digest, batch.as_slice()) {
        let number = value.number();
        println!(rt; "  digest under {name}: {number:016x}")?;
    }
    Ok(())
}

pub(crate) fn show_batch(rt: &HostRuntime, line: u64, batch: &Batch) -> anyhow::Result<()> {
    let count = batch.count;
    println!(rt; "{line}: batch, {count} requests")?;
    for r in batch.as_slice() {
        let Request {
            client,
            timestamp,
            payload,
            seal,
        } = *r;
        println!(rt;
            "  client {client}, timestamp {timestamp}, payload {payload:016x}, seal {seal:016x}"
        )?;
    }
    show_digest(rt, "FNV-1a", &Fnv1a, batch)?;
    show_digest(rt, "SHA-256", &Sha256, batch)
}

pub(crate) fn show_fault(rt: &HostRuntime, line: u64, fault: &FrameFault) -> anyhow::Result<()> {
    println!(rt; "{line}: no frame: {fault}")?;
    Ok(())
}

fn show_row<T: fmt::Display>(rt: &HostRuntime, name: &T, count: u64) -> anyhow::Result<()> {
    if count > 0 {
        println!(rt; "  {name}: {count}")?;
    }
    Ok(())
}

pub(crate) fn show_account(rt: &HostRuntime, account: &Account) -> anyhow::Result<()> {
    let lines = account.lines;
    println!(rt; "account of {lines} lines")?;
    // by byte: each kind is asked for by its own
    for byte in 1..BATCH {
        show_row(rt, &Kind::from(byte), account.rows[usize::from(byte)])?;
    }
    show_row(rt, &"batch", account.rows[usize::from(BATCH)])?;
    show_row(rt, &"no frame", account.rows[0])?;
    show_row(rt, &"not hexadecimal", account.unread)
}
