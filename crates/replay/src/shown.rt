// What is printed.
use crate::choices::{AnyApplication, AnyDigest};
use crate::fault::LineFault;
use crate::votes::voters;
use controller::controller::Controller;
use protocol::records::Answer;
use quorum::house::House;
use std::fmt;
use table::records::{Certificate, Place};
use window::window::Window;
use wire::records::{DigestValue, Sealed};
use wire::writing::write_sealed;

// Bytes in hexadecimal.
#[derive(Clone, Copy)]
struct Hex<'a>(&'a [u8]);

impl fmt::Display for Hex<'_> {
    fn fmt<W: fmt::Write>(&self, f: &mut fmt::Formatter<W>) -> fmt::Result {
        for b in self.0 {
            write!(f, "{b:02x}")?;
        }
        Ok(())
    }
}

// A part that may be missing.
#[derive(Clone, Copy)]
struct Part<T>(Option<T>);

impl<T: fmt::Display> fmt::Display for Part<T> {
    fn fmt<W: fmt::Write>(&self, f: &mut fmt::Formatter<W>) -> fmt::Result {
        match &self.0 {
            Some(part) => write!(f, "{part}"),
            None => f.write_str("none"),
        }
    }
}

#[derive(Clone, Copy)]
struct DigestText(DigestValue);

impl fmt::Display for DigestText {
    fn fmt<W: fmt::Write>(&self, f: &mut fmt::Formatter<W>) -> fmt::Result {
        write!(f, "{:016x}", self.0.number())
    }
}

// A certificate without its prepares.
#[derive(Clone, Copy)]
struct CertificateText<'a>(&'a Certificate);

impl fmt::Display for CertificateText<'_> {
    fn fmt<W: fmt::Write>(&self, f: &mut fmt::Formatter<W>) -> fmt::Result {
        let Certificate { epoch, digest, .. } = self.0;
        write!(f, "{epoch}:{}", DigestText(*digest))
    }
}

// A house that is open.
#[derive(Clone, Copy)]
pub struct HouseLine(pub House);

impl fmt::Display for HouseLine {
    fn fmt<W: fmt::Write>(&self, f: &mut fmt::Formatter<W>) -> fmt::Result {
        let house = self.0;
        let (n, faults, quorum) = (house.n(), house.faults(), house.quorum());
        write!(f, "house {n} f={faults} q={quorum}")
    }
}

// What a call answered, and a line for each of the statements that it sent.
#[derive(Clone, Copy)]
pub struct Reply<'a> {
    pub answer: Answer,
    pub sent: &'a [Sealed],
}

impl fmt::Display for Reply<'_> {
    fn fmt<W: fmt::Write>(&self, f: &mut fmt::Formatter<W>) -> fmt::Result {
        let Answer {
            issued,
            forwarded,
            first,
            batches,
            applied,
            passed,
        } = self.answer;
        write!(
            f,
            "ok {issued} {forwarded} {first} {batches} {applied} {passed}"
        )?;
        for sealed in self.sent {
            if let Ok(frame) = write_sealed(sealed) {
                write!(f, "\n  {}", Hex(&frame))?;
            }
        }
        Ok(())
    }
}

// What is seen of controller i.
#[derive(Clone, Copy)]
pub struct ControllerLine<'a> {
    pub i: usize,
    pub member: &'a Controller<AnyDigest, AnyApplication>,
}

impl fmt::Display for ControllerLine<'_> {
    fn fmt<W: fmt::Write>(&self, f: &mut fmt::Formatter<W>) -> fmt::Result {
        let ControllerLine { i, member } = self;
        let view = member.view();
        write!(
            f,
            "controller {i} epoch={} changing={} leaders={} first={} last={} ",
            view.epoch,
            u8::from(view.changing),
            view.leaders,
            view.first,
            Part(view.last)
        )?;
        write!(
            f,
            "stable={} delivered={} mark={:016x}",
            member.stable(),
            member.delivered(),
            member.mark()
        )
    }
}

// A client's window, as controller i has it.
#[derive(Clone, Copy)]
pub struct WindowLine {
    pub i: usize,
    pub client: u8,
    pub window: Window,
}

impl fmt::Display for WindowLine {
    fn fmt<W: fmt::Write>(&self, f: &mut fmt::Formatter<W>) -> fmt::Result {
        let WindowLine { i, client, window } = self;
        write!(
            f,
            "window {i} {client} base={} marks={:016x}",
            window.base(),
            window.marks()
        )
    }
}

// What controller i keeps of a number.
#[derive(Clone, Copy)]
pub struct PlaceLine<'a> {
    pub i: usize,
    pub number: u64,
    pub place: &'a Place,
}

impl fmt::Display for PlaceLine<'_> {
    fn fmt<W: fmt::Write>(&self, f: &mut fmt::Formatter<W>) -> fmt::Result {
        let PlaceLine { i, number, place } = self;
        let proposal = Part(place.proposal.map(DigestText));
        let known = Part(place.batch.as_ref().map(|batch| batch.count));
        let prepares = voters(&place.prepares);
        let commits = voters(&place.commits);
        let certificate = Part(place.certificate.as_ref().map(CertificateText));
        write!(
            f,
            "batch {i} {number} proposal={proposal} known={known} prepares={prepares} commits={commits} certificate={certificate}"
        )
    }
}

// What a line asks for, or why it is not carried out.
pub(crate) fn show<T: fmt::Display + Drop>(
    rt: &HostRuntime,
    asked: Result<T, LineFault>,
) -> anyhow::Result<()> {
    match asked {
        Ok(text) => println!(rt; "{text}")?,
        Err(fault) => println!(rt; "{fault}")?,
    }
    Ok(())
}
