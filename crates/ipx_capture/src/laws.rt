//! Laws of the definitions: functions that do nothing, whose contracts say what holds of all bytes and all calls.
ghost use Rattle.std.specs.Prelude.{◌≡◌, ◌≤◌, ◌++◌, List, ℕ, Option, Some, length, true};
ghost use Rattle.ipx_wire.specs.Ends.{Input};
ghost use Rattle.ipx_capture.specs.Asks.{Ask, all_came};
ghost use Rattle.ipx_capture.specs.Calls.{Calls, IsOfFile, ending};
ghost use Rattle.ipx_capture.specs.Given.{BegunBy, CallsBy, TakesBy};
ghost use Rattle.ipx_capture.specs.Place.{Place, Opened, Takes};
ghost use Rattle.ipx_capture.specs.Records.{Record, records};
ghost use Rattle.ipx_capture.specs.Frame.{Kind, frame_of};
ghost use Rattle.ipx_capture.specs.Written.{may_carry, carried, most_carried, padding, written};
ghost use Rattle.ipx_capture.specs.declared.capture_fault.CaptureFault.{CaptureFault};

use ipx_wire::Source;

/// The calls of a capture give the records of its file, one by one, and then its end: for a reader that tells its bytes,
/// whatever pieces they come in, as long as the reader doesn't fail and memory is left.
pub fn one_by_one()
    ensures { (before : Input) (file : List ℕ) (first last ended : Place) (told : List Record) (fault : Option CaptureFault)
        → before.left ≡ Some file → Opened before first → Calls first told last → Takes last ended (ending fault) → IsOfFile fault
        → records file ≡ record { records = told; fault = fault } }
{}

/// The same for any source, also for one that doesn't tell its bytes: the calls of a capture give the records of the
/// bytes that its calls to the source gave, from the header's first byte on, one by one, and then their end.
pub fn of_any_source<S: Source>()
    ensures { (before : Input) (first last ended : Place) (asks : List Ask) (told : List Record) (fault : Option CaptureFault)
        → Opened before first → (head : BegunBy S.asked before first.input first.order) → CallsBy S.asked asks first told last → (end : TakesBy S.asked last ended (ending fault))
        → IsOfFile fault → records (all_came (head.fetched.asks ++ asks ++ end.fetched.asks)) ≡ record { records = told; fault = fault } }
{}

/// A frame that is written for a packet is read again: its kind, and the packet with the zeros behind it that pad the frame.
pub fn read_again()
    ensures { (kind : Kind) (to from packet : List ℕ)
        → length to ≡ 6 → length from ≡ 6 → may_carry kind packet ≡ true → carried kind packet ≤ most_carried
        → frame_of (written kind to from packet) ≡ Some (kind, packet ++ padding kind packet) }
{}
