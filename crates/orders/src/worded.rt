// An application whose orders are written in words.
use crate::line::Wrong;
use application::interface::Application;

pub trait Worded: Application {
    // The payload of an order in these words.
    fn payload_in(words: &[&str]) -> Result<u64, Wrong>;

    // What changed since the start.
    fn show(&self, rt: &HostRuntime) -> anyhow::Result<()>;
}
