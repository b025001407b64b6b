//! The systems of the tests.

/// A process sends its numbers to another one, which keeps the last.
pub const LETTERS: &[u8] = b"message letter
begin
  number : 8 bits
end
process a
var next : 0..9
begin
  next < 2 -> next := min(next + 1, 9); send letter(next) to b
end
process b
var seen : 0..255
begin
  rcv letter from a -> seen := letter.number
end
";

/// A process takes one of ten digits.
pub const DIGIT: &[u8] = b"process a
var x : 0..9
begin
  true -> choose x
end
";

/// Each turn of a process sends 64 datagrams.
pub const MANY: &[u8] = b"message tick
begin
  number : 8 bits
end
process a
begin
  true -> do 64 times true -> send tick(1) to b od
end
process b
begin
  rcv tick from a -> skip
end
";
