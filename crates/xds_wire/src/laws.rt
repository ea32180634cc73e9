//! Laws of frames: bytes are cut in one way, and calls cut all the bytes that they are fed, in whatever pieces these
//! arrive. Laws of discovery messages: bytes are at most one message, or have a fault, and never both.

ghost use Rattle.std.specs.Prelude.{◌≡◌, ◌≢◌, ◌⊎◌, ◌↔◌, ℕ, ◌<◌, ◌^◌, All, None, [], List, ◌++◌, length};
ghost use Rattle.std.specs.List.{AllByRecursion};
ghost use Rattle.xds_wire.specs.Frames.{Tail, unfinished, Cut, AreAllowed, IsBeginning, frame_of, frames_of};
ghost use Rattle.xds_wire.specs.Discovery.{RequestMessage, IsRequest, RequestFault, ResponseMessage, IsResponse, ResponseFault, ExtensionMessage, IsExtension, ExtensionFault};
ghost use Rattle.xds_wire.specs.Stream.{Kept, start, Call, Runs, Resumes, bytes_fed, messages_taken};
ghost use Rattle.xds_wire.specs.Written.{RequestWritten, IsSoundRequest, ResponseWritten, IsSoundResponse, ExtensionWritten, IsSoundExtension};

use proto_wire::Refusal;

/// In any sequence of calls, the messages taken and those kept are exactly what all the fed bytes are cut to.
pub fn cuts()
    ensures { (max : ℕ) (calls : List Call) (kept : Kept) → Runs (start max) calls kept
        → Cut (bytes_fed calls) max (messages_taken calls ++ kept.messages) kept.tail }
{}

/// If more bytes arrive, cutting continues from the tail.
pub fn cut_resumes()
    ensures { (bytes more : List ℕ) (max : ℕ) (ms ns : List (List ℕ)) (t u : Tail)
        → Cut bytes max ms t → Resumes max t more ns u → Cut (bytes ++ more) max (ms ++ ns) u }
{}

/// Bytes are cut in at most one way.
pub fn cut_unique()
    ensures { (bytes : List ℕ) (max : ℕ) (ms ns : List (List ℕ)) (t u : Tail)
        → Cut bytes max ms t → Cut bytes max ns u → (ms ≡ ns) × (t ≡ u) }
{}

/// All bytes can be cut.
pub fn cut_total()
    ensures { (bytes : List ℕ) (max : ℕ) → All (λ b. b < 256) bytes
        → (ms : List (List ℕ)) × (t : Tail) × Cut bytes max ms t }
{}

/// Sequences of calls that fed the same bytes have the same messages, taken or kept, and the same tail.
pub fn cuts_unique()
    ensures { (max : ℕ) (calls others : List Call) (kept also : Kept)
        → Runs (start max) calls kept → Runs (start max) others also
        → bytes_fed calls ≡ bytes_fed others
        → (messages_taken calls ++ kept.messages ≡ messages_taken others ++ also.messages)
        × (kept.tail ≡ also.tail) }
{}

/// Frames are cut to their messages.
pub fn frames_are_cut()
    ensures { (max : ℕ) (messages : List (List ℕ)) → AreAllowed max messages
        → Cut (frames_of messages) max messages (unfinished []) }
{}

/// A prefix of frames is cut to the first messages, and is not broken.
pub fn part_of_frames_is_cut()
    ensures { (max : ℕ) (messages : List (List ℕ)) (bytes more : List ℕ)
        → AreAllowed max messages → bytes ++ more ≡ frames_of messages
        → (first others : List (List ℕ)) × (rest : List ℕ)
        × (messages ≡ first ++ others) × Cut bytes max first (unfinished rest) }
{}

/// Bytes that begin the frames of some messages, each of fewer than 2^32 bytes, are cut to the first of these
/// messages. A later message may be above the limit. The bytes that are left begin the frames of the other messages.
pub fn beginning_of_frames_is_cut()
    ensures { (bytes more : List ℕ) (max : ℕ) (messages ms : List (List ℕ)) (t : Tail)
        → AllByRecursion (λ message. length message < 2 ^ 32) messages → bytes ++ more ≡ frames_of messages
        → (cut : Cut bytes max ms t) → (others : List (List ℕ))
        × (messages ≡ ms ++ others) × (cut.rest ++ more ≡ frames_of others) }
{}

/// For each proper beginning of a frame there are further bytes that complete the frame.
pub fn a_rest_begins_a_frame()
    ensures { (max : ℕ) (rest : List ℕ) → All (λ b. b < 256) rest → IsBeginning max rest
        → (message more : List ℕ) × (more ≢ []) × (rest ++ more ≡ frame_of message) }
{}

/// Bytes are a request, or have a fault.
pub fn request_total()
    ensures { (bytes : List ℕ) → ((m : RequestMessage) × IsRequest bytes m)
        ⊎ ((e : Refusal) × RequestFault bytes e) }
{}

/// Bytes that are a request have no fault.
pub fn request_disjoint()
    ensures { (bytes : List ℕ) (m : RequestMessage) (e : Refusal)
        → IsRequest bytes m → RequestFault bytes e → ⊥ }
{}

/// Bytes are one request at most.
pub fn request_unique()
    ensures { (bytes : List ℕ) (m n : RequestMessage) → IsRequest bytes m → IsRequest bytes n → m ≡ n }
{}

/// Bytes are a response, or have a fault.
pub fn response_total()
    ensures { (bytes : List ℕ) → ((m : ResponseMessage) × IsResponse bytes m)
        ⊎ ((e : Refusal) × ResponseFault bytes e) }
{}

/// Bytes that are a response have no fault.
pub fn response_disjoint()
    ensures { (bytes : List ℕ) (m : ResponseMessage) (e : Refusal)
        → IsResponse bytes m → ResponseFault bytes e → ⊥ }
{}

/// Bytes are one response at most.
pub fn response_unique()
    ensures { (bytes : List ℕ) (m n : ResponseMessage) → IsResponse bytes m → IsResponse bytes n → m ≡ n }
{}

/// Bytes are an extension, or have a fault.
pub fn extension_total()
    ensures { (bytes : List ℕ) → ((m : ExtensionMessage) × IsExtension bytes m)
        ⊎ ((e : Refusal) × ExtensionFault bytes e) }
{}

/// Bytes that are an extension have no fault.
pub fn extension_disjoint()
    ensures { (bytes : List ℕ) (m : ExtensionMessage) (e : Refusal)
        → IsExtension bytes m → ExtensionFault bytes e → ⊥ }
{}

/// Bytes are one extension at most.
pub fn extension_unique()
    ensures { (bytes : List ℕ) (m n : ExtensionMessage) → IsExtension bytes m → IsExtension bytes n → m ≡ n }
{}

/// What is written for a request reads back, if its strings are UTF-8 and its error's code is an int32.
pub fn request_reads_back()
    ensures { (m : RequestMessage) (bytes : List ℕ) → IsSoundRequest m → RequestWritten m bytes
        → IsRequest bytes m }
{}

/// There is one way at most to write a request.
pub fn request_written_unique()
    ensures { (m : RequestMessage) (a b : List ℕ) → RequestWritten m a → RequestWritten m b → a ≡ b }
{}

/// A request that is read from written bytes has the same version, names, type and nonce, and an error if the written
/// one has one.
pub fn request_is_as_written()
    ensures { (m n : RequestMessage) (bytes : List ℕ) → RequestWritten m bytes → IsRequest bytes n
        → (n.version_info ≡ m.version_info) × (n.resource_names ≡ m.resource_names) × (n.type_url ≡ m.type_url)
        × (n.response_nonce ≡ m.response_nonce) × ((n.error_detail ≡ None) ↔ (m.error_detail ≡ None)) }
{}

/// What is written for a response reads back, if its strings are UTF-8.
pub fn response_reads_back()
    ensures { (m : ResponseMessage) (bytes : List ℕ) → IsSoundResponse m → ResponseWritten m bytes
        → IsResponse bytes m }
{}

/// There is one way at most to write a response.
pub fn response_written_unique()
    ensures { (m : ResponseMessage) (a b : List ℕ) → ResponseWritten m a → ResponseWritten m b → a ≡ b }
{}

/// A response that is read from written bytes has the same version, type and nonce.
pub fn response_is_as_written()
    ensures { (m n : ResponseMessage) (bytes : List ℕ) → ResponseWritten m bytes → IsResponse bytes n
        → (n.version_info ≡ m.version_info) × (n.type_url ≡ m.type_url) × (n.nonce ≡ m.nonce) }
{}

/// What is written for an extension reads back, if its strings are UTF-8.
pub fn extension_reads_back()
    ensures { (m : ExtensionMessage) (bytes : List ℕ) → IsSoundExtension m → ExtensionWritten m bytes
        → IsExtension bytes m }
{}

/// There is one way at most to write an extension.
pub fn extension_written_unique()
    ensures { (m : ExtensionMessage) (a b : List ℕ) → ExtensionWritten m a → ExtensionWritten m b → a ≡ b }
{}
