// The station: every operation of the library under one name, and where its promise stands. Open this first.
//
// A station hears frames, keeps what it received of a file in a map and a buffer that it was lent, joins
// another station's reception, lists the holes that are left, asks for them, and saves what it has:
//
//   operation      does                                           refuses                    its promise
//   open           clears the map and the buffer of a file        7, 12                      reception, specs/Opening
//   take           takes a frame into a reception                 the frame's, 7, 12, 9,     taking, specs/Taking
//                                                                 10, 11
//   join           puts a second reception into the first         7, 12, 9, 11               reception, specs/Joining
//   list           the first hole at a place or later             7, 12, 15                  holes, specs/Listing
//   is_held,       a position of a file, and how many             –                          reception, specs/Held
//   count_held
//   read_piece     a frame as a file piece                        1, 2, 3, 4, 7, 1, 6, 5, 7  frame, specs/Piece
//   piece_bytes,   the piece itself, a part of the frame          –                          frame, specs/Piece
//   piece_of
//   read_entry     a frame as a directory entry                   1, 2, 3, 4, 7, 1, 6, 5,    frame, specs/Entry
//                                                                 14, 8
//   header_bytes,  its file header, a part of the frame           –                          frame, specs/Entry
//   header_of
//   read_header    the file header that a slice starts with       8                          header, specs/Header
//   item_bytes     an item's data, a part of the header           –                          header, specs/Data
//   write_fill     a request for holes                            2, 7, 12, 15, 12           request, specs/Writing
//   write_start    a request for the start of a file              2, 12                      request, specs/Writing
//   read_request   a frame as a request                           1, 2, 3, 4, 7, 1, 5, 7,    request, specs/Reading
//                                                                 10
//   hole_at,       a hole of a request by its index               –                          request, specs/Reading
//   hole_of
//   save           a reception as a record                        7, 12                      record, specs/Saving
//   load           a record into a map and a buffer               13, 12                     record, specs/Loading
//   read_record    what a record says, nothing copied             13                         record, specs/Reading
//   map_of         its map, a part of the record                  –                          record, specs/Reading
//
// An operation answers its values, or one numbered reason (`Reason`) in the order above and then no lent byte
// has changed; none asks anything of its caller. A `File` is its number and its length, and a `Reception` one that
// is lent to be read. `boundary.rt`, `frame_boundary.rt` and `request_boundary.rt` have the same operations for a
// host program, on numbers and byte slices alone (specs/Exports, specs/FrameExports, specs/RequestExports).
//
// The operations that these are made of have promises of their own:
//
//   ax25       writable, read_address, write_address (specs/Address), read_head, write_head (specs/Head)
//   header     decide, Cursor::first, Cursor::step (specs/Items)
//   request    flags to and from what they ask for, `Asks` (specs/Request, specs/Reading)
//   reception  take, of the `Data` of a piece that was read (specs/Taking), wrong_length, short, short_map
//              (specs/Reception), map_size (positions, specs/Map)
//   runs       piece_agrees, put_piece, both_agree, add_held (specs/Offers)
//   positions  is_set, lowest, count_set, is_held, mark (specs/Map), first_on (specs/Map),
//              count_held (specs/Spans)
//   remainder  remainder (specs/Remainder), check_right (specs/Check)
//   octets     byte, number, bytes (specs/Numbers), array (specs/Values), put (specs/Runs)
//
// `reason` has the reasons and their numbers, answers, and reasons in their order; above all stands `report`, the
// hole program's text (specs/Reporting).
//
// What all of it adds up to is the customer's three demands: they stand in `specs/Demand1.antt`,
// `specs/Demand2.antt` and `specs/Demand3.antt`, and are proved in `proofs/` under the same names; the
// orders stand as 01, the customer's rules, prints them in `specs/Orders.antt`, its worked cases in
// `specs/Cases.antt`. That no second answer meets a promise is in `proofs/OnlyOne.antt` of each crate.
#![tactic(auto)]

mod addresses;
pub mod boundary;
pub mod frame_boundary;
pub mod request_boundary;

pub use frame::{header_bytes, header_of, piece_bytes, piece_of, read_entry, read_piece};
pub use header::{item_bytes, read_header};
pub use holes::list;
pub use reason::Reason;
pub use reception::{Data, File, Reception, count_held, is_held, join, open};
pub use record::{load, map_of, read_record, save};
pub use request::{hole_at, hole_of, read_request, write_fill, write_start};
pub use taking::take;
