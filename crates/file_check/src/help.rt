// What `check --help` prints.
pub const HELP: &str = "\
Usage: check [-q] [--target flash|boot|data] [--size N] [FILE]

Tells whether the loader would take a firmware file of S-records for a target.
Whether its addresses lie inside the target is seen only when it is loaded.
Without FILE, or where FILE is -, the text is read from standard input.

  -q             print only the outcome
  --target NAME  flash (the default), or boot or data, the EEPROMs
  --size N       the bytes of the EEPROM, a decimal number, which boot and data need
                 and flash has no use for
  --             only FILE follows
  -h, --help     print this text

--target=NAME and --size=N are taken too. Of options given twice the last counts.

Output, with tabs between the parts:
  D LINE ADDRESS BYTES   for each record with data of a file that is taken: its
                         line from 1, its address as 8 hex digits, its bytes
  R OUTCOME LINE         last: the outcome, and the line at fault, or 0
Of a refused file only the R line is printed, and standard error has what to do.

Outcomes:
  0  taken
  1  target or size           give --size of 1 to 1,048,576
  2  over 4,194,304 bytes     leave out what does not go to the target
  3  shape of a line          convert again; S4 and S6 lines, empty lines,
                              a lower-case s and a lone CR are not taken
  4  checksum                 fetch or convert the file again
  5  order of lines           header, data, count, end; on line 0 there is no end
                              line: convert with an execution start address
  6  wrong count (S5)         fetch or convert the file again
  7  addresses do not rise    sort the records, with none over another
  8  not whole addresses      put an even number of bytes on each line (flash)
  9  no data                  see that the right file was converted

Exit status: 0 where the file is taken, 1 where it is refused or the command
line or the file cannot be read.
";
