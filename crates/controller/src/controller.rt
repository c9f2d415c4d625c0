// A controller: its core, and the digest and the application that it was opened with.
ghost use Rattle.controller.specs.Sound.{Sound};

use application::interface::Application;
use digest::interface::Digest;
use protocol::records::Core;

// The fact stands here and in no ghost field of the core: the definitions build cores as plain records,
// for every input, and would each owe a proof. So private functions ask for the parts that they need.
#[derive(Drop)]
pub struct Controller<D: Digest, A: Application> {
    pub(crate) core: Core,
    pub(crate) digest: D,
    pub(crate) app: A,
    ghost sound: { Sound core },
}
