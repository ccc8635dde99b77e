// What `board --help` prints.
pub const HELP: &str = "\
Usage: board < LOG

Replays a bus log from standard input on a board that is simulated, and prints the
replies and what is left in the board's memories.

A line of the log is one of these:
  ID#DATA                 a frame, in hex digits, as 0B081880#0100000000000000
  (TIME) INTERFACE ID#DATA   the same, as candump -L writes it
  tick N                  N milliseconds pass; a log has at most 1,000,000 of them
  board NAME=VALUE ..     what the board is made of, before the first frame or tick
  memory SPACE CONTENTS   what a memory shows from its start on, in hex digits, before
                          the first frame or tick; SPACE is 0, the flash, 2, the EEPROM
                          of the bootloader, or 3, the EEPROM of the data
Numbers are decimal, or hex behind 0x. Empty lines, and lines that begin with #, are
passed over. The names of a board, with what counts where one is not given:
  base=1000               address at which the flash begins, in hex digits
  sectors=4 words=16      sectors of the flash, and words of each
  part=0001               part ID, in hex digits; that of a listed board sets base,
                          sectors and words where they are not given
  boot=64 data=64         bytes of the two EEPROMs
  major=1 minor=0         revision of the bootloader
  wait=2000               milliseconds until the application is started, or 16000
All memories are blank at first, and a lane crossing stands over the flash.

Output, with tabs between the parts, a line for each frame:
  F FRAME REPLY   its bytes and those of the reply, in hex digits, or - for no reply
and then:
  S STATE            Waiting, Connected, Idle or Running
  M SPACE CONTENTS   the whole contents of each memory, in hex digits

Exit status: 0 where the log is replayed; 1 where it is malformed, and then nothing is
replayed or printed, and standard error has the line and why.

  -h, --help     print this text
";
