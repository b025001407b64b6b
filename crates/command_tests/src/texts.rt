//! Systems.

/// Three actions, each of which is enabled.
pub const TRI: &[u8] = b"process a var x : 0..2
begin
  true -> x := 0
  [] true -> x := 1
  [] true -> x := 2
end
";

/// A process that acts once.
pub const ONCE: &[u8] = b"process a var x : 0..1 begin x = 0 -> x := 1 end";

/// Two processes that send to each other, inside loops.
pub const TWO: &[u8] = b"message m begin x : 8 bits end
process a
begin
  rcv m from b -> skip
  [] true -> do 2 times true -> send m(1) to b od
end
process b
begin
  rcv m from a -> skip
  [] true -> do 2 times true -> send m(2) to a od
end
";

/// A process sends one number to another.
pub const PING: &[u8] = b"message ping begin n : 8 bits end
process a inp first : 0..9 var k : 0..1 begin k = 0 -> k := 1; send ping(first) to b end
process b var seen : 0..255 begin rcv ping from a -> seen := ping.n end
";

/// One process sends as much as it can, and the other receives at most one datagram in a turn.
pub const FLOOD: &[u8] = b"message m begin x : 8 bits end
process a
begin
  true -> do 64 times true -> send m(1) to b od
end
process b
begin
  rcv m from a -> skip
end
";

/// The usage line.
pub const USAGE: &[u8] =
    b"usage: tapc check | print | compile | world | node | replay | make | soak\n";
