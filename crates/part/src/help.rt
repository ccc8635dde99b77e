// What `part --help` prints.
pub const HELP: &str = "\
Usage: part < SCRIPT

Puts a memory part through its paces, as a script on standard input says, so that the
same script can be run on another part and the outputs compared.

The first line names the part, and each other one asks for an action:
  flash sectors=N words=N buffer=N   a flash over a buffer of so many bytes
  eeprom buffer=N                    an EEPROM over a buffer of so many bytes
  read O         the byte at offset O
  question O V   whether the part would take the value V at offset O
  put O V        make the byte at offset O the value V
  clear U        make every byte of unit U 0xFF
The word crossed at the end of the first line puts a lane crossing over the part. Each
byte of the buffer is 0xFF at the start. A part has at most 1,048,576 bytes; a flash has
1 to 32 sectors, and where they do not fit it has no bytes and one unit. Numbers are
decimal, or hex behind 0x, and a value is at most 255. Empty lines, and lines that begin
with #, are passed over.

Output, a line for each action:
  two hex digits   the byte that was read
  yes or no        whether the value in question would be taken
  ok               the put or the clear is done
  refused N        it is refused: 1 the offset is not below the length, 2 the value is
                   not taken, 3 there is no such unit
and then, with tabs between the parts:
  M CONTENTS       the whole contents, in hex digits
  C SEAL           their seal, four hex digits

Exit status: 0 where the script is carried out; 1 where it is malformed, and then
nothing is carried out or printed, and standard error has the line and why.

  -h, --help     print this text
";
