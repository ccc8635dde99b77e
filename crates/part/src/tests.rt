// Scripts with what is printed of them, at the edges of each refusal of a part, and malformed ones with
// what is told of them.
use crate::text::play_text;
use std::test::Fail;

#[test]
fn scripts(rt: HostRuntime) -> Result<(), Fail> {
    for (place, (script, output)) in PLAYED.iter().enumerate() {
        let report = play_text(rt.alloc(), script.as_bytes()).map_err(|_| "refused")?;
        assert_eq!(rt; report.as_str(), *output, "script {place}");
    }
    Ok(())
}

#[test]
fn malformed(rt: HostRuntime) -> Result<(), Fail> {
    for (script, message) in REFUSED {
        let error = play_text(rt.alloc(), script).err().ok_or(message)?;
        assert_eq!(rt; format!(in rt.alloc(); "{error}")?.as_str(), message);
    }
    Ok(())
}

// Each script with the whole output.
const PLAYED: [(&str, &str); 14] = [
    // the edges of each refusal, and hex in either case
    (
        "flash sectors=2 words=2 buffer=8\nread 7\nread 8\nread 18446744073709551615\nquestion 7 0\nquestion 8 255\nput 7 0xF0\nput 0x8 1\nput 7 0x30\nput 7 0x31\nput 7 0x0f\nquestion 7 0x31\nquestion 7 0x10\nclear 1\nclear 2\nclear 0xFfFfFfFfFfFfFfFf\nread 7\n",
        "FF\nrefused 1\nrefused 1\nyes\nrefused 1\nok\nrefused 1\nok\nrefused 2\nrefused 2\nno\nyes\nok\nrefused 3\nrefused 3\n30\nM\tFFFFFFFFFFFFFF30\nC\t0000\n",
    ),
    // unit 0 has the highest offsets, and a lane crossing keeps the units
    (
        "flash sectors=2 words=2 buffer=8 crossed\nput 0 1\nput 3 2\nput 4 3\nput 7 4\nclear 0\nread 7\nread 3\n",
        "ok\nok\nok\nok\nok\nFF\n02\nM\t01FFFF02FFFFFFFF\nC\t6040\n",
    ),
    // an odd length: the last offset has no other
    (
        "eeprom buffer=5 crossed\nput 0 1\nput 1 2\nput 3 4\nput 4 5\nread 4\nread 5\nclear 0x1\n",
        "ok\nok\nok\nok\n05\nrefused 1\nrefused 3\nM\t0102FF0405\nC\t807E\n",
    ),
    // an EEPROM takes any value
    (
        "eeprom buffer=3\nput 2 0\nquestion 2 255\nput 2 0xfF\nput 0 0x12\nput 1 0x34\nclear 1\nread 2\n",
        "ok\nyes\nok\nok\nok\nrefused 3\nFF\nM\t1234FF\nC\t4D3F\n",
    ),
    // no bytes
    (
        "eeprom buffer=0\nread 0\nquestion 0 0\nput 0 0\nclear 0\nclear 1\n",
        "refused 1\nrefused 1\nrefused 1\nok\nrefused 3\nM\t\nC\tFFFF\n",
    ),
    // no words
    (
        "flash sectors=3 words=0 buffer=10\nread 0\nclear 2\nclear 3\n",
        "refused 1\nok\nrefused 3\nM\t\nC\tFFFF\n",
    ),
    // 32 sectors
    (
        "flash sectors=32 words=1 buffer=64\nput 0 0x3F\nput 63 1\nclear 31\nclear 32\n",
        "ok\nok\nok\nrefused 3\nM\tFFFFFFFFFFFFFFFFFFFFFFFFFFFFFFFFFFFFFFFFFFFFFFFFFFFFFFFFFFFFFFFFFFFFFFFFFFFFFFFFFFFFFFFFFFFFFFFFFFFFFFFFFFFFFFFFFFFFFFFFFFFFFF01\nC\t0000\n",
    ),
    // 33 sectors
    (
        "flash sectors=33 words=1 buffer=66\nread 0\nclear 0\nclear 1\n",
        "refused 1\nok\nrefused 3\nM\t\nC\tFFFF\n",
    ),
    // no sectors
    (
        "flash sectors=0 words=1 buffer=66 crossed\nread 0\nclear 0\n",
        "refused 1\nok\nM\t\nC\tFFFF\n",
    ),
    // a buffer that the sectors just fill, and one that is a byte shorter
    (
        "flash sectors=2 words=1 buffer=4\nread 3\n",
        "FF\nM\tFFFFFFFF\nC\t0000\n",
    ),
    (
        "flash sectors=2 words=1 buffer=3\nread 0\nclear 1\n",
        "refused 1\nrefused 3\nM\t\nC\tFFFF\n",
    ),
    // a buffer far longer than the part
    (
        "flash sectors=1 words=1 buffer=18446744073709551615\nput 1 7\n",
        "ok\nM\tFF07\nC\t8201\n",
    ),
    // no actions; no LF at the end
    ("eeprom buffer=1", "M\tFF\nC\t00FF\n"),
    // comments, empty lines, white space and CR LF
    (
        "# a part\r\n\r\n \t\neeprom\tbuffer=2  crossed \r\n#read 9 9\r\n  put 1  0x0 \r\n\nread 0\r",
        "ok\nFF\nM\tFF00\nC\t00FF\n",
    ),
];

// Each script with the message.
const REFUSED: [(&[u8], &str); 36] = [
    (
        b"",
        "no line names a part; the first line is flash sectors=N words=N buffer=N, or eeprom buffer=N, and may end with crossed",
    ),
    (
        b"# only a comment\n\n",
        "no line names a part; the first line is flash sectors=N words=N buffer=N, or eeprom buffer=N, and may end with crossed",
    ),
    (
        b"\nplash buffer=1\n",
        "line 2: there is no part \"plash\"; the first line is flash sectors=N words=N buffer=N, or eeprom buffer=N, and may end with crossed",
    ),
    (
        b"read 0\n",
        "line 1: there is no part \"read\"; the first line is flash sectors=N words=N buffer=N, or eeprom buffer=N, and may end with crossed",
    ),
    (
        b"Flash sectors=1 words=1 buffer=1\n",
        "line 1: there is no part \"Flash\"; the first line is flash sectors=N words=N buffer=N, or eeprom buffer=N, and may end with crossed",
    ),
    (b"flash\n", "line 1: sectors= is missing"),
    (
        b"flash words=1 sectors=1 buffer=2\n",
        "line 1: \"words=1\" stands where sectors= and a number belong",
    ),
    (
        b"flash sectors=1 words=1 buffer=\n",
        "line 1: \"buffer=\" gives no number for buffer=; a number is digits, or 0x and hex digits, and below 2^64",
    ),
    (
        b"eeprom buffer=1 crossing\n",
        "line 1: \"crossing\" is a word too many",
    ),
    (
        b"eeprom buffer=1 crossed crossed\n",
        "line 1: \"crossed\" is a word too many",
    ),
    (
        b"eeprom buffer=-1\n",
        "line 1: \"buffer=-1\" gives no number for buffer=; a number is digits, or 0x and hex digits, and below 2^64",
    ),
    (
        b"eeprom buffer=18446744073709551616\n",
        "line 1: \"buffer=18446744073709551616\" gives no number for buffer=; a number is digits, or 0x and hex digits, and below 2^64",
    ),
    (
        b"eeprom buffer=1\nput 0 1\nwrite 0 1\n",
        "line 3: there is no command \"write\"; a line is read O, question O V, put O V or clear U",
    ),
    (
        b"eeprom buffer=1\n\neeprom buffer=1\n",
        "line 3: there is no command \"eeprom\"; a line is read O, question O V, put O V or clear U",
    ),
    (
        b"eeprom buffer=1\nREAD 0\n",
        "line 2: there is no command \"READ\"; a line is read O, question O V, put O V or clear U",
    ),
    (b"eeprom buffer=1\nread\n", "line 2: the offset is missing"),
    (
        b"eeprom buffer=1\nread 0 0\n",
        "line 2: \"0\" is a word too many",
    ),
    (
        b"eeprom buffer=1\nquestion 0\n",
        "line 2: the value is missing",
    ),
    (
        b"eeprom buffer=1\nput 0 1 2\n",
        "line 2: \"2\" is a word too many",
    ),
    (b"eeprom buffer=1\nclear\n", "line 2: the unit is missing"),
    (
        b"eeprom buffer=1\nclear 0 0\n",
        "line 2: \"0\" is a word too many",
    ),
    (
        b"eeprom buffer=1\nread -1\n",
        "line 2: \"-1\" gives no number for the offset; a number is digits, or 0x and hex digits, and below 2^64",
    ),
    (
        b"eeprom buffer=1\nread +1\n",
        "line 2: \"+1\" gives no number for the offset; a number is digits, or 0x and hex digits, and below 2^64",
    ),
    (
        b"eeprom buffer=1\nread 0x\n",
        "line 2: \"0x\" gives no number for the offset; a number is digits, or 0x and hex digits, and below 2^64",
    ),
    (
        b"eeprom buffer=1\nread 0x+1\n",
        "line 2: \"0x+1\" gives no number for the offset; a number is digits, or 0x and hex digits, and below 2^64",
    ),
    (
        b"eeprom buffer=1\nread 0X1\n",
        "line 2: \"0X1\" gives no number for the offset; a number is digits, or 0x and hex digits, and below 2^64",
    ),
    (
        b"eeprom buffer=1\nread 1F\n",
        "line 2: \"1F\" gives no number for the offset; a number is digits, or 0x and hex digits, and below 2^64",
    ),
    (
        b"eeprom buffer=1\nclear 0xG\n",
        "line 2: \"0xG\" gives no number for the unit; a number is digits, or 0x and hex digits, and below 2^64",
    ),
    (
        b"eeprom buffer=1\nread 0x10000000000000000\n",
        "line 2: \"0x10000000000000000\" gives no number for the offset; a number is digits, or 0x and hex digits, and below 2^64",
    ),
    (
        b"eeprom buffer=1\nput 0 256\n",
        "line 2: \"256\" is too large for the value, which is at most 255",
    ),
    (
        b"eeprom buffer=1\nquestion 0 0x1ff\n",
        "line 2: \"0x1ff\" is too large for the value, which is at most 255",
    ),
    (
        b"eeprom buffer=1\nquestion 0 x\n",
        "line 2: \"x\" gives no number for the value; a number is digits, or 0x and hex digits, and below 2^64",
    ),
    (
        b"eeprom buffer=1\n # no comment\n",
        "line 2: there is no command \"#\"; a line is read O, question O V, put O V or clear U",
    ),
    (
        b"eeprom buffer=1\nread 0\nread \xff\n",
        "line 3: the line is not UTF-8",
    ),
    (
        b"eeprom buffer=1\n# \xc3(\n",
        "line 2: the line is not UTF-8",
    ),
    (
        b"eeprom buffer=1\nread 1\nread x\nread y\n",
        "line 3: \"x\" gives no number for the offset; a number is digits, or 0x and hex digits, and below 2^64",
    ),
];
