// What `load --help` prints.
pub const HELP: &str = "\
Usage: load < FILE

Loads a file of S-records from standard input into the flash of the bench board, which
is simulated, over a wire on which nothing is lost, and prints what went over the wire.
The flash has 4 sectors of 16 words from address 0x1000 on; an address stands for a word
of two bytes. The file has at most 65,536 bytes.

Output, with tabs between the parts, a line for each frame:
  F FRAME REPLY   its bytes and those of the reply, in hex digits, or - for no reply
and then the report, in decimal numbers:
  R OUTCOME LINE COMMAND CODE FRAMES SECTORS ACKNOWLEDGED
OUTCOME is 0 where the file is loaded, and otherwise:
  1 to 9   the file is refused, and nothing is sent: see check --help
  10       a record lies outside of the flash
  11       the part ID of the board is not listed
  12       a command was refused
  13       a command was sent three times and not answered
LINE is the line at fault from 1, COMMAND the code of the command that ended the load,
and CODE that of the refusal; each is 0 where there is none. FRAMES is how many frames
were sent, SECTORS how many sectors were cleared, and ACKNOWLEDGED 1 where the end of
the session was acknowledged.

Exit status: 0 where the file is loaded; 1 where it is not, and then standard error has
why, and what to do.

  -h, --help     print this text
";
