// Tests of the desk: audits, workers that wait for one another, commands under a seat.
//
// They say what no clause says: when gates are called, that threads run at once, how a failing source ends its worker.
mod audits;
mod gates;
mod inputs;
mod runs;
mod script;
mod seats;
