//! Laws of the definitions: functions that do nothing, whose contracts say what holds of all bytes.
ghost use Rattle.std.specs.Prelude.{◌≡◌, ◌↔◌, ◌+◌, ◌<◌, ◌++◌, ◌∷◌, [], List, ℕ, Some, None, Ok, Err, false, length, drop};
ghost use Rattle.ipx_wire.specs.Piece.{IsBytes};
ghost use Rattle.ipx_capture.specs.declared.order.Order.{Order};
ghost use Rattle.ipx_recording.specs.Blocks.{IsSection, IsInterface, IsPacket, IsOther, between};
ghost use Rattle.ipx_recording.specs.Chain.{Place, IsBlock, IsFile};
ghost use Rattle.ipx_recording.specs.Differs.{Differs, IsRefused};
ghost use Rattle.ipx_recording.specs.Further.{Continues};
ghost use Rattle.ipx_recording.specs.Met.{met, most_interfaces};
ghost use Rattle.ipx_recording.specs.Recorded.{State, recorded, packets_from, packets, prepend, after, size_of, is_wanting, end_at, Recorded};
ghost use Rattle.ipx_recording.specs.declared.interface.Interface.{Interface};
ghost use Rattle.ipx_recording.specs.declared.met.Met.{Met};
ghost use Rattle.ipx_recording.specs.declared.met.Met.TheVariants.{Wants};
ghost use Rattle.ipx_recording.specs.declared.recording_fault.RecordingFault.{RecordingFault};

/// Part by part, in whatever pieces the bytes come, the packets are those of all bytes: what is taken from the first bytes stands before
/// the packets of the others, and what faults there is the end. Bytes that tell nothing are the end of the file, or are cut.
pub fn whatever_pieces()
    ensures taken { (s : State) (n : ℕ) (a b : List ℕ) (m : Met) → met s.order s.interfaces s.due a ≡ Ok m → is_wanting m ≡ false
        → packets_from s n (a ++ b) ≡ prepend (packets n a m) (packets_from (after s m) (n + length (packets n a m)) (drop (size_of m) a ++ b)) }
    ensures refused { (s : State) (n : ℕ) (a b : List ℕ) (fault : RecordingFault) → met s.order s.interfaces s.due a ≡ Err fault
        → packets_from s n (a ++ b) ≡ record { records = []; fault = Some fault } }
    ensures ended { (s : State) (n : ℕ) (a : List ℕ) (k : ℕ) → met s.order s.interfaces s.due a ≡ Ok (Wants k)
        → packets_from s n a ≡ record { records = []; fault = end_at s.due a } }
{}

/// Further bytes change none of the packets, nor a fault that none takes back.
pub fn further_bytes()
    ensures { (s : State) (n : ℕ) (a b : List ℕ) → Continues (packets_from s n a) (packets_from s n (a ++ b)) }
{}

/// Whole blocks are read as what they are, whatever stands behind them: the section that begins a file, and a later one, whose interfaces
/// are its own; an interface, as long as there are fewer than 256; a packet in any of its three forms; and a block of another kind, which shows
/// nothing.
pub fn blocks()
    ensures file { (order : Order) (block rest : List ℕ) → IsSection order block → recorded (block ++ rest) ≡ packets_from (between order []) 1 rest }
    ensures section { (order other : Order) (interfaces : List Interface) (n : ℕ) (block rest : List ℕ) → IsSection other block
        → packets_from (between order interfaces) n (block ++ rest) ≡ packets_from (between other []) n rest }
    ensures interface { (order : Order) (interfaces : List Interface) (n : ℕ) (i : Interface) (block rest : List ℕ) → IsInterface order i block
        → length interfaces < most_interfaces → packets_from (between order interfaces) n (block ++ rest) ≡ packets_from (between order (interfaces ++ i ∷ [])) n rest }
    ensures packet { (order : Order) (interfaces : List Interface) (n link wire : ℕ) (bytes block rest : List ℕ) → IsPacket order interfaces link wire bytes block
        → packets_from (between order interfaces) n (block ++ rest)
        ≡ prepend (record { number = n; link = link; wire = wire; bytes = bytes } ∷ []) (packets_from (between order interfaces) (n + 1) rest) }
    ensures other { (order : Order) (interfaces : List Interface) (n : ℕ) (block rest : List ℕ) → IsOther order block
        → packets_from (between order interfaces) n (block ++ rest) ≡ packets_from (between order interfaces) n rest }
{}

/// The reader accepts exactly the recordings. A file is read to its end without a fault just where it is blocks one behind another, the first of
/// them a section's header, and then its packets are those of the blocks. Every other file is refused at the first bytes that begin with no
/// block, with the packets in front of these, and the fault says why they don't; they never differ where a block stands.
pub fn files()
    ensures whole { (bytes : List ℕ) (records : List Recorded) → IsBytes bytes → IsFile bytes records ↔ (recorded bytes ≡ record { records = records; fault = None }) }
    ensures refused { (bytes : List ℕ) (records : List Recorded) (fault : RecordingFault) → IsBytes bytes
        → IsRefused bytes records fault ↔ (recorded bytes ≡ record { records = records; fault = Some fault }) }
    ensures first { (here next : Place) (block rest : List ℕ) (records shown : List Recorded) (fault : RecordingFault) → IsBlock here block records next
        → Differs here (block ++ rest) shown fault → ⊥ }
{}
