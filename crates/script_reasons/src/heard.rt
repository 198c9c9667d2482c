//! The script and the replies, where someone may listen to explain what is refused.
ghost use Rattle.std.specs.Prelude.{◌≡◌};

use crate::explainer::Explainer;
use octet_ports::{PortFault, PortIn, PortOut};
use std::cell::RefCell;

/// Who is told of what is read and replied, if anyone.
pub type Listener<'l, 'e, R> = Option<&'l RefCell<Explainer<'e, R>>>;

/// The script, out of a port.
#[derive(Drop)]
pub struct ScriptPort<'l, 'e, R, P> {
    script: P,
    listener: Listener<'l, 'e, R>,
    begun: bool,
}

impl<'l, 'e, R: Eprint, P: PortIn> ScriptPort<'l, 'e, R, P> {
    /// Nothing was read of it yet.
    pub fn new(script: P, listener: Listener<'l, 'e, R>) -> Self
        ensures { ⟦<ScriptPort<'l, 'e, R, P> as PortIn>⟧.source result ≡ P.source script }
    {
        ScriptPort {
            script,
            listener,
            begun: false,
        }
    }

    /// Whether something was read of it, be it that it is empty.
    pub fn has_begun(&self) -> bool {
        self.begun
    }
}

impl<R: Eprint, P: PortIn> PortIn for ScriptPort<'_, '_, R, P> {
    ghost source = { λ port. P.source port.script };

    fn get(&mut self, buffer: &mut [u8]) -> Result<usize, PortFault> {
        let count = self.script.get(buffer)?;
        self.begun = true;
        if let Some(listener) = self.listener
            && let Ok(mut listener) = listener.try_borrow_mut()
        {
            listener.read(&buffer[..count]);
        }
        Ok(count)
    }

    fn failed(&self) -> bool {
        self.script.failed()
    }
}

/// The replies, into a port.
#[derive(Drop)]
pub struct ReplyPort<'l, 'e, R, P> {
    replies: P,
    listener: Listener<'l, 'e, R>,
}

impl<'l, 'e, R: Eprint, P: PortOut> ReplyPort<'l, 'e, R, P> {
    /// They go to this port.
    pub fn new(replies: P, listener: Listener<'l, 'e, R>) -> Self
        ensures { ⟦<ReplyPort<'l, 'e, R, P> as PortOut>⟧.sink result ≡ P.sink replies }
    {
        ReplyPort { replies, listener }
    }
}

impl<R: Eprint, P: PortOut> PortOut for ReplyPort<'_, '_, R, P> {
    ghost sink = { λ port. P.sink port.replies };

    fn put(&mut self, octets: &[u8]) -> Result<usize, PortFault> {
        let count = self.replies.put(octets)?;
        if let Some(listener) = self.listener
            && let Ok(mut listener) = listener.try_borrow_mut()
        {
            listener.put(&octets[..count]);
        }
        Ok(count)
    }

    fn flush(&mut self) -> Result<(), PortFault> {
        self.replies.flush()
    }

    fn failed(&self) -> bool {
        self.replies.failed()
    }
}
