//! A call that is read once.
ghost use Rattle.std.specs.Prelude.{◌≡◌, ◌≤◌, Err, Ok, IfOk, IfSome, length};
ghost use Rattle.std.specs.List.{slice_get};
ghost use Rattle.std.specs.Option.{option_copied, option_map};
ghost use Rattle.verify_rules.specs.Call.{call_of};
ghost use Rattle.verify_rules.specs.World.{First, World};
ghost use Rattle.open_calls.specs.Claims.{claims_lines};
ghost use Rattle.open_calls.specs.Founds.{IsFoundEarly};
ghost use Rattle.open_calls.specs.OpenCalls.{IsEarly, IsEarlyLent, IsHeaderValue, call_in, header_in, judged_in};
ghost use Rattle.open_calls.specs.OpenCalls.{x5u_in};

use crate::found::Found;
use crate::lines::claims_of;
use crate::world::OpenWorld;
use call_judging::pass_of;
use sip_message::{Message, MessageFault};
use std::alloc::{AllocError, Global};
use std::marker::Model;
use verify_rules::{Refusal, ScreenFault, Screened, Settings, screen};

/// A call: its message and the moment at which it came, under the settings of a world. It is screened by the rules of
/// the call, and open too if they refuse it.
#[derive(Drop)]
pub struct OpenCall {
    pub(crate) settings: Settings,
    pub(crate) moment: u64,
    pub(crate) message: Vec<u8>,
    pub(crate) screened: Result<Screened, Refusal>,
}

impl Model for OpenCall {
    ghost use Rattle.verify_rules.specs.Call.{call_of};
    ghost use Rattle.open_calls.specs.OpenCalls.{CallView, IsEarly};

    ghost Value = { CallView };

    ghost view = { λ c. record { settings = c.settings; moment = c.moment; message = c.message.items } };

    ghost invariant = { λ c. IsEarly (call_of c.settings c.moment c.message.items) c.screened };
}

impl OpenCall {
    /// The call of this message, which came at this moment (Unix time, in seconds), under the settings of a world.
    /// `AllocError` is the only error.
    pub fn open(
        alloc: Global,
        world: &OpenWorld,
        moment: u64,
        message: &[u8],
    ) -> Result<OpenCall, AllocError>
        ensures { IfOk result
            (λ call. call ≡ record { settings = world.now.settings; moment = moment; message = message.now }) }
    {
        let settings = *world.settings();
        let screened = screened(alloc, &settings, moment, message)?;
        Ok(OpenCall {
            settings,
            moment,
            message: Vec::from_slice(alloc, message)?,
            screened,
        })
    }

    /// What comes of it by the rules of the call alone: refused, or by what it is known again if no later rule is
    /// broken.
    pub fn early(&self) -> Found
        ensures { IsFoundEarly (call_in self.now) result }
    {
        match &self.screened {
            Ok(screened) => Found::Passes(pass_of(screened)),
            Err(refusal) => Found::Refused(*refusal),
        }
    }

    /// How many PASSporTs are judged, at most nine; 0 if the rules of the call refuse it.
    pub fn count(&self) -> usize
        ensures exact { result ≡ length (judged_in self.now) }
        ensures few { result ≤ 9 }
    {
        match &self.screened {
            Ok(screened) => screened.count(),
            Err(_) => 0,
        }
    }

    /// The x5u of the PASSporT at this index, in the order in which the call went: which chain the call asks for (RFC
    /// 8225, section 4.3).
    pub fn x5u(&self, i: usize) -> Option<&[u8]>
        ensures { option_copied result ≡ option_map x5u_in (slice_get (judged_in self.now) i) }
    {
        match &self.screened {
            Ok(screened) => x5u_at(screened, i),
            Err(_) => None,
        }
    }

    /// What its PASSporTs say, a line each: the number of the Identity field, and the payload that was signed. None if
    /// the rules of the call refuse it. `AllocError` is the only error.
    pub fn claims(&self, alloc: Global) -> Result<Vec<u8>, AllocError>
        ensures { IfOk result (λ lines. lines.items ≡ claims_lines (judged_in self.now)) }
    {
        match &self.screened {
            Ok(screened) => claims_of(alloc, screened),
            Err(_) => Ok(Vec::new(alloc)),
        }
    }

    /// The value of the header field `i` of this name in its message, counted from 0; None if there are no more, or if
    /// the message can't be read. Names are compared without case, and a compact form is its long name (RFC 3261,
    /// sections 7.3.1 and 7.3.3). Each call reads the message. `AllocError` is the only error.
    pub fn header(
        &self,
        alloc: Global,
        name: &[u8],
        i: usize,
    ) -> Result<Option<Vec<u8>>, AllocError>
        ensures exact { IfOk result (λ found. option_map (λ value. value.items) found ≡ header_in self.now name.now i) }
        ensures found { IfOk result (λ found. IfSome found (λ value. IsHeaderValue self.now name.now i value.items)) }
        ensures short { IfOk result (λ found. IfSome found (λ value. length value.items ≤ 65535)) }
    {
        match Message::read(alloc, &self.message) {
            Ok(message) => copied(alloc, message.field_value(name, i)),
            Err(MessageFault::Form(_)) => Ok(None),
            Err(MessageFault::Memory) => Err(AllocError),
        }
    }

    /// The call as the rules of the call leave it: screened, or refused by the first that it breaks.
    pub fn screened(&self) -> Result<&Screened, Refusal>
        ensures { IsEarlyLent (call_in self.now) result }
    {
        match &self.screened {
            Ok(screened) => Ok(screened),
            Err(refusal) => Err(*refusal),
        }
    }

    /// The settings under which it was opened.
    pub fn settings(&self) -> &Settings
        ensures { result.now ≡ self.now.settings }
    {
        &self.settings
    }

    /// The bytes of its message.
    pub fn message(&self) -> &[u8]
        ensures { result.now ≡ self.now.message }
    {
        &self.message
    }

    /// The moment at which it came.
    pub fn moment(&self) -> u64
        ensures { result ≡ self.now.moment }
    {
        self.moment
    }
}

/// A call as the rules of the call leave it. `AllocError` is the only error.
fn screened(
    alloc: Global,
    settings: &Settings,
    moment: u64,
    message: &[u8],
) -> Result<Result<Screened, Refusal>, AllocError>
    ensures { IfOk result (IsEarly (call_of settings.now moment message.now)) }
{
    match screen(alloc, message, moment, settings) {
        Ok(screened) => Ok(Ok(screened)),
        Err(fault) => match fault {
            ScreenFault::Refused(refusal) => Ok(Err(refusal)),
            ScreenFault::Memory => Err(AllocError),
        },
    }
}

/// The x5u of the PASSporT at an index, if there is one.
fn x5u_at(screened: &Screened, i: usize) -> Option<&[u8]>
    ensures { option_copied result ≡ option_map x5u_in (slice_get screened.now.readings i) }
{
    if i >= screened.count() {
        return None;
    }
    Some(screened.passport(i).x5u())
}

/// A copy of a value, if there is one. `AllocError` is the only error.
fn copied(alloc: Global, value: Option<&[u8]>) -> Result<Option<Vec<u8>>, AllocError>
    ensures { IfOk result (λ copy. option_map (λ bytes. bytes.items) copy ≡ option_copied value.entry) }
{
    match value {
        Some(bytes) => Ok(Some(Vec::from_slice(alloc, bytes)?)),
        None => Ok(None),
    }
}
