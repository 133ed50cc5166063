//! Who acts, in which order events stand, and the greatest values of a line.
use super::*;

const ONE_NAME_LINES: &str = r#"{"at":0}
{"client":"x","op":"undesire","process":"x"}
{"cell":"x","op":"join","zone":"x","memory":9,"disk":9,"containers":9,"ttl":9}
{"client":"x","op":"cancel","name":"x"}
{"at":1}
{"client":"x","op":"task","name":"x","memory":1,"disk":1}
{"at":1}
{"op":"round"}
{"at":2}
{"cell":"x","op":"up"}
{"client":"x","op":"undesire","process":"x","lost":"call"}
{"cell":"x","op":"finish","name":"x"}
{"client":"x","op":"resolve","name":"y"}
"#;

const ONE_NAME_TEXT: &str =
    r#"{"actor":"x","answer":"refused","call":"undesire","line":2,"subject":"x","why":"unknown"}
{"actor":"x","answer":"ok","call":"join","line":3,"subject":"x"}
{"actor":"x","answer":"refused","call":"cancel","line":4,"subject":"x","why":"unknown"}
{"event":"created","row":{"cell":"x","containers":9,"disk":9,"epoch":0,"evacuating":false,"memory":9,"tag":null,"until":9,"zone":"x"},"table":"cell"}
{"actor":"x","answer":"ok","call":"task","line":6,"subject":"x"}
{"event":"created","row":{"birth":1,"cell":null,"disk":1,"failed":null,"instance":null,"memory":1,"name":"x","since":1,"state":"pending","tag":null},"table":"task"}
{"asked":1,"complete":true,"foreign":0,"line":8,"lost":0,"op":"round","own":1,"refused":0,"stopped":0,"unplaced":[]}
{"event":"changed","row":{"birth":1,"cell":"x","disk":1,"failed":null,"instance":"0.1","memory":1,"name":"x","since":1,"state":"running","tag":null},"table":"task"}
{"actor":"x","answer":"none","call":"up","line":10,"subject":"x"}
{"actor":"x","answer":"lost call","call":"undesire","line":11,"subject":"x"}
{"actor":"x","answer":"ok","call":"completetask","line":12,"subject":"x"}
{"actor":"x","answer":"refused","call":"resolve","line":13,"subject":"y","why":"unknown"}
{"event":"changed","row":{"birth":1,"cell":null,"disk":1,"failed":false,"instance":null,"memory":1,"name":"x","since":2,"state":"completed","tag":null},"table":"task"}
{"done":4,"doubts":0,"next":4,"phases":4}
"#;

#[test]
fn a_client_and_a_cell_of_one_name_are_two_actors(rt: HostRuntime) {
    plays(&rt, rt.alloc(), ONE_NAME_LINES, ONE_NAME_TEXT);
}

const EVENTS_LINES: &str = r#"{"at":0}
{"client":"cli","op":"task","name":"t","memory":1,"disk":1}
{"client":"cli","op":"desire","process":"b","domain":"apps","instances":1,"memory":64,"disk":128}
{"client":"cli","op":"desire","process":"a.10","domain":"apps","instances":1,"memory":64,"disk":128}
{"client":"cli","op":"update","process":"a.10","instances":2}
{"client":"cli","op":"desire","process":"B","domain":"apps","instances":1,"memory":64,"disk":128}
{"client":"cli","op":"undesire","process":"a.10"}
{"client":"cli","op":"desire","process":"a.10","domain":"apps","instances":3,"memory":64,"disk":128}
{"client":"cli","op":"desire","process":"a.9","domain":"apps","instances":1,"memory":64,"disk":128}
{"client":"cli","op":"task","name":"s","memory":1,"disk":1}
{"client":"cli","op":"desire","process":"ba","domain":"apps","instances":1,"memory":64,"disk":128}
{"client":"cli","op":"cancel","name":"t"}
{"client":"cli","op":"resolve","name":"t"}
{"client":"cli","op":"delete","name":"t"}
"#;

const EVENTS_TEXT: &str = r#"{"actor":"cli","answer":"ok","call":"task","line":2,"subject":"t"}
{"actor":"cli","answer":"ok","call":"desire","line":3,"subject":"b"}
{"actor":"cli","answer":"ok","call":"desire","line":4,"subject":"a.10"}
{"actor":"cli","answer":"ok","call":"update","line":5,"subject":"a.10"}
{"actor":"cli","answer":"ok","call":"desire","line":6,"subject":"B"}
{"actor":"cli","answer":"ok","call":"undesire","line":7,"subject":"a.10"}
{"actor":"cli","answer":"ok","call":"desire","line":8,"subject":"a.10"}
{"actor":"cli","answer":"ok","call":"desire","line":9,"subject":"a.9"}
{"actor":"cli","answer":"ok","call":"task","line":10,"subject":"s"}
{"actor":"cli","answer":"ok","call":"desire","line":11,"subject":"ba"}
{"actor":"cli","answer":"ok","call":"cancel","line":12,"subject":"t"}
{"actor":"cli","answer":"ok","call":"resolve","line":13,"subject":"t"}
{"actor":"cli","answer":"ok","call":"delete","line":14,"subject":"t"}
{"event":"created","row":{"disk":128,"domain":"apps","instances":1,"memory":64,"port":8080,"process":"B","route":null,"tag":null},"table":"desired"}
{"event":"created","row":{"disk":128,"domain":"apps","instances":1,"memory":64,"port":8080,"process":"a.10","route":null,"tag":null},"table":"desired"}
{"event":"changed","row":{"disk":128,"domain":"apps","instances":2,"memory":64,"port":8080,"process":"a.10","route":null,"tag":null},"table":"desired"}
{"event":"removed","row":{"disk":128,"domain":"apps","instances":2,"memory":64,"port":8080,"process":"a.10","route":null,"tag":null},"table":"desired"}
{"event":"created","row":{"disk":128,"domain":"apps","instances":3,"memory":64,"port":8080,"process":"a.10","route":null,"tag":null},"table":"desired"}
{"event":"created","row":{"disk":128,"domain":"apps","instances":1,"memory":64,"port":8080,"process":"a.9","route":null,"tag":null},"table":"desired"}
{"event":"created","row":{"disk":128,"domain":"apps","instances":1,"memory":64,"port":8080,"process":"b","route":null,"tag":null},"table":"desired"}
{"event":"created","row":{"disk":128,"domain":"apps","instances":1,"memory":64,"port":8080,"process":"ba","route":null,"tag":null},"table":"desired"}
{"event":"created","row":{"birth":8,"cell":null,"disk":1,"failed":null,"instance":null,"memory":1,"name":"s","since":0,"state":"pending","tag":null},"table":"task"}
{"event":"created","row":{"birth":0,"cell":null,"disk":1,"failed":null,"instance":null,"memory":1,"name":"t","since":0,"state":"pending","tag":null},"table":"task"}
{"event":"changed","row":{"birth":0,"cell":null,"disk":1,"failed":true,"instance":null,"memory":1,"name":"t","since":0,"state":"completed","tag":null},"table":"task"}
{"event":"changed","row":{"birth":0,"cell":null,"disk":1,"failed":true,"instance":null,"memory":1,"name":"t","since":0,"state":"resolving","tag":null},"table":"task"}
{"event":"removed","row":{"birth":0,"cell":null,"disk":1,"failed":true,"instance":null,"memory":1,"name":"t","since":0,"state":"resolving","tag":null},"table":"task"}
{"done":13,"doubts":0,"next":13,"phases":1}
"#;

#[test]
fn events_stand_by_table_and_key_and_those_of_one_row_in_their_order(rt: HostRuntime) {
    plays(&rt, rt.alloc(), EVENTS_LINES, EVENTS_TEXT);
}

const GREATEST_LINES: &str = r#"{"at":4294967295}
{"client":"nnnnnnnnnnnnnnnnnnnnnnnnnnnnnnnnnnnnnnnnnnnnnnnnnnnnnnnnnnnnnnnnnnnnnnnnnnnnnnnn","op":"desire","process":"nnnnnnnnnnnnnnnnnnnnnnnnnnnnnnnnnnnnnnnnnnnnnnnnnnnnnnnnnnnnnnnnnnnnnnnnnnnnnnnn","domain":"nnnnnnnnnnnnnnnnnnnnnnnnnnnnnnnnnnnnnnnnnnnnnnnnnnnnnnnnnnnnnnnnnnnnnnnnnnnnnnnn","instances":1000,"memory":4294967295,"disk":4294967295,"tag":"nnnnnnnnnnnnnnnnnnnnnnnnnnnnnnnnnnnnnnnnnnnnnnnnnnnnnnnnnnnnnnnnnnnnnnnnnnnnnnnn","route":"nnnnnnnnnnnnnnnnnnnnnnnnnnnnnnnnnnnnnnnnnnnnnnnnnnnnnnnnnnnnnnnnnnnnnnnnnnnnnnnn","port":65535}
{"at":4294967295}
{"client":"-","op":"desire","process":".","domain":"_","instances":0,"memory":0,"disk":0,"port":0}
{"client":"-","op":"task","name":"0","memory":4294967295,"disk":4294967295,"tag":"A-z_0.9"}
{"at":4294967295}
{"cell":"nnnnnnnnnnnnnnnnnnnnnnnnnnnnnnnnnnnnnnnnnnnnnnnnnnnnnnnnnnnnnnnnnnnnnnnnnnnnnnnn","op":"join","zone":"nnnnnnnnnnnnnnnnnnnnnnnnnnnnnnnnnnnnnnnnnnnnnnnnnnnnnnnnnnnnnnnnnnnnnnnnnnnnnnnn","memory":4294967295,"disk":4294967295,"containers":4294967295,"ttl":4294967295,"tag":"nnnnnnnnnnnnnnnnnnnnnnnnnnnnnnnnnnnnnnnnnnnnnnnnnnnnnnnnnnnnnnnnnnnnnnnnnnnnnnnn"}
{"cell":"nnnnnnnnnnnnnnnnnnnnnnnnnnnnnnnnnnnnnnnnnnnnnnnnnnnnnnnnnnnnnnnnnnnnnnnnnnnnnnnn","op":"claim","process":"nnnnnnnnnnnnnnnnnnnnnnnnnnnnnnnnnnnnnnnnnnnnnnnnnnnnnnnnnnnnnnnnnnnnnnnnnnnnnnnn","index":4294967295,"memory":4294967295,"disk":4294967295}
{"cell":"nnnnnnnnnnnnnnnnnnnnnnnnnnnnnnnnnnnnnnnnnnnnnnnnnnnnnnnnnnnnnnnnnnnnnnnnnnnnnnnn","op":"run","process":".","index":0,"memory":0,"disk":0}
"#;

const GREATEST_TEXT: &str =
    r#"{"actor":"nnnnnnnnnnnnnnnnnnnnnnnnnnnnnnnnnnnnnnnnnnnnnnnnnnnnnnnnnnnnnnnnnnnnnnnnnnnnnnnn","answer":"ok","call":"desire","line":2,"subject":"nnnnnnnnnnnnnnnnnnnnnnnnnnnnnnnnnnnnnnnnnnnnnnnnnnnnnnnnnnnnnnnnnnnnnnnnnnnnnnnn"}
{"event":"created","row":{"disk":4294967295,"domain":"nnnnnnnnnnnnnnnnnnnnnnnnnnnnnnnnnnnnnnnnnnnnnnnnnnnnnnnnnnnnnnnnnnnnnnnnnnnnnnnn","instances":1000,"memory":4294967295,"port":65535,"process":"nnnnnnnnnnnnnnnnnnnnnnnnnnnnnnnnnnnnnnnnnnnnnnnnnnnnnnnnnnnnnnnnnnnnnnnnnnnnnnnn","route":"nnnnnnnnnnnnnnnnnnnnnnnnnnnnnnnnnnnnnnnnnnnnnnnnnnnnnnnnnnnnnnnnnnnnnnnnnnnnnnnn","tag":"nnnnnnnnnnnnnnnnnnnnnnnnnnnnnnnnnnnnnnnnnnnnnnnnnnnnnnnnnnnnnnnnnnnnnnnnnnnnnnnn"},"table":"desired"}
{"actor":"-","answer":"ok","call":"desire","line":4,"subject":"."}
{"actor":"-","answer":"ok","call":"task","line":5,"subject":"0"}
{"event":"created","row":{"disk":0,"domain":"_","instances":0,"memory":0,"port":0,"process":".","route":null,"tag":null},"table":"desired"}
{"event":"created","row":{"birth":2,"cell":null,"disk":4294967295,"failed":null,"instance":null,"memory":4294967295,"name":"0","since":4294967295,"state":"pending","tag":"A-z_0.9"},"table":"task"}
{"actor":"nnnnnnnnnnnnnnnnnnnnnnnnnnnnnnnnnnnnnnnnnnnnnnnnnnnnnnnnnnnnnnnnnnnnnnnnnnnnnnnn","answer":"ok","call":"join","line":7,"subject":"nnnnnnnnnnnnnnnnnnnnnnnnnnnnnnnnnnnnnnnnnnnnnnnnnnnnnnnnnnnnnnnnnnnnnnnnnnnnnnnn"}
{"actor":"nnnnnnnnnnnnnnnnnnnnnnnnnnnnnnnnnnnnnnnnnnnnnnnnnnnnnnnnnnnnnnnnnnnnnnnnnnnnnnnn","answer":"refused","call":"claim","line":8,"subject":"nnnnnnnnnnnnnnnnnnnnnnnnnnnnnnnnnnnnnnnnnnnnnnnnnnnnnnnnnnnnnnnnnnnnnnnnnnnnnnnn/4294967295","why":"unknown"}
{"actor":"nnnnnnnnnnnnnnnnnnnnnnnnnnnnnnnnnnnnnnnnnnnnnnnnnnnnnnnnnnnnnnnnnnnnnnnnnnnnnnnn","answer":"refused","call":"start","line":9,"subject":"./0","why":"unknown"}
{"event":"created","row":{"cell":"nnnnnnnnnnnnnnnnnnnnnnnnnnnnnnnnnnnnnnnnnnnnnnnnnnnnnnnnnnnnnnnnnnnnnnnnnnnnnnnn","containers":4294967295,"disk":4294967295,"epoch":3,"evacuating":false,"memory":4294967295,"tag":"nnnnnnnnnnnnnnnnnnnnnnnnnnnnnnnnnnnnnnnnnnnnnnnnnnnnnnnnnnnnnnnnnnnnnnnnnnnnnnnn","until":8589934590,"zone":"nnnnnnnnnnnnnnnnnnnnnnnnnnnnnnnnnnnnnnnnnnnnnnnnnnnnnnnnnnnnnnnnnnnnnnnnnnnnnnnn"},"table":"cell"}
{"done":4,"doubts":0,"next":4,"phases":3}
"#;

#[test]
fn names_of_80_characters_and_the_greatest_numbers_are_taken(rt: HostRuntime) {
    plays(&rt, rt.alloc(), GREATEST_LINES, GREATEST_TEXT);
}

const BLANK_LINES: &str = "\n\
 \t\r\n\
{\"at\":0}\r\n\
\r\n\
\t{ \"op\" : \"desire\" , \"instances\":1,\"client\":\"cli\",\"disk\":128,\"memory\":64,\"domain\":\"apps\",\"process\":\"web\" }  \n\
\n\
{\"process\":\"api\",\"process\":\"web\",\"op\":\"undesire\",\"client\":\"a\",\"client\":\"cli\",\"times\":1000,\"times\":2}\n\
{\"at\":9,\"at\":0}\n\
{\"op\":\"die\",\"op\":\"round\",\"lose_ask\":[\"\"],\"lose_ask\":[]}\n\
\n\
{\"at\":0}\n\
{\"client\":\"cl\\u0069\",\"op\":\"cancel\",\"name\":\"\\u006aob\"}";

const BLANK_TEXT: &str = r#"{"actor":"cli","answer":"ok","call":"desire","line":5,"subject":"web"}
{"actor":"cli","answer":"ok","call":"undesire","line":7,"subject":"web"}
{"actor":"cli","answer":"refused","call":"undesire","line":7,"subject":"web","why":"unknown"}
{"event":"created","row":{"disk":128,"domain":"apps","instances":1,"memory":64,"port":8080,"process":"web","route":null,"tag":null},"table":"desired"}
{"event":"removed","row":{"disk":128,"domain":"apps","instances":1,"memory":64,"port":8080,"process":"web","route":null,"tag":null},"table":"desired"}
{"asked":0,"complete":true,"foreign":0,"line":9,"lost":0,"op":"round","own":0,"refused":0,"stopped":0,"unplaced":[]}
{"actor":"cli","answer":"refused","call":"cancel","line":12,"subject":"job","why":"unknown"}
{"done":2,"doubts":0,"next":2,"phases":3}
"#;

#[test]
fn blank_lines_are_counted_and_space_and_the_order_of_members_mean_nothing(rt: HostRuntime) {
    plays(&rt, rt.alloc(), BLANK_LINES, BLANK_TEXT);
}

#[test]
fn phases_without_lines_are_counted_and_print_nothing(rt: HostRuntime) {
    plays(
        &rt,
        rt.alloc(),
        r#"{"at":0}
{"at":0}

{"at":7}
{"client":"cli","op":"undesire","process":"web"}
{"at":7}
{"at":4294967295}
"#,
        r#"{"actor":"cli","answer":"refused","call":"undesire","line":5,"subject":"web","why":"unknown"}
{"done":0,"doubts":0,"next":0,"phases":5}
"#,
    );
}
