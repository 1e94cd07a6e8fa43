// Gates: what stands around each step of a worker.
use crate::worker::Worker;
use std::sync::Wait;

/// What a worker calls around each of its steps: a run around each command that it submits, a packing of statements
/// around each statement. It is told the worker and the number of the step among the worker's, from 1. Both calls may
/// wait, so that a gate can hold one worker until another has come.
pub trait Gate {
    /// Called before a step.
    fn before<R: Wait>(&self, rt: &R, worker: Worker, seq: u32);

    /// Called after a step that was answered.
    fn answered<R: Wait>(&self, rt: &R, worker: Worker, seq: u32);
}

/// The gate that does nothing.
#[derive(Clone, Copy)]
pub struct NoGate;

impl Gate for NoGate {
    fn before<R: Wait>(&self, _rt: &R, _worker: Worker, _seq: u32) {}

    fn answered<R: Wait>(&self, _rt: &R, _worker: Worker, _seq: u32) {}
}
