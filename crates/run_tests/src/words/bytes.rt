//! Boards as bytes, and what is printed of them, all written by hand.

/// What is printed of the rows of the board of one desire (`STORED`).
pub const WEB: &str =
    r#"{"row":{"disk":128,"domain":"apps","instances":3,"memory":64,"port":8080,"process":"web","route":null,"tag":null},"table":"desired"}
"#;

/// An area of generation 2: a head with rows of each table in each state, after nine transitions, and
/// the frame of one desire.
pub const FULL: &[u8] = b"\x01DIEGOBBS\x00\x01\x00\x00\x00\x00\x00\x00\x00\x02\x00\x00\x01\xa7\
\x00\x00\x00\x00\x00\x00\x00\x09\x00\x00\x00\x02\x00\x00\x00\x05\x00\x00\x00\x04\x00\x00\x00\
\x02\
\x03api\x04apps\x00\x00\x00\x01\x00\x00\x00\x20\x00\x00\x00\x10\x03gpu\x0bapi.example#\x82\
\x03web\x04apps\x00\x00\x00\x04\x00\x00\x00@\x00\x00\x00\x80\x00\x00\x1f\x90\
\x03web\x00\x00\x00\x00\x00\x00\x00\x00\x00\x00\x00\x00\x00\x03\x01\
\x03web\x00\x00\x00\x01\x00\x01\x00\x00\x00\x00\x00\x00\x00\x00\x00\x00\x00\x01\x02c1\x00\
\x00\x00\x00\x00\x00\x00\x04\x00\
\x03web\x00\x00\x00\x02\x00\x02\x00\x00\x00\x00\x00\x00\x00\x01\x00\x00\x00\x07\x02c2\x00\
\x00\x00\x01\x00\x00\x00\x05\x00\
\x03web\x00\x00\x00\x02\x01\x02\x00\x00\x00\x00\x00\x00\x00\x00\x00\x00\x00\x02\x02c1\x00\
\x00\x00\x00\x00\x00\x00\x02\x00\
\x03web\x00\x00\x00\x03\x00\x03\x00\x00\x00\x03\x00\x00\x00\x06\x00\
\x02t1\x00\x00\x00\x00\x00\x00\x00\x02\x00\x00\x00\x00\x07\x00\x00\x00@\x00\x00\x00\x20\x03g\
pu\
\x02t2\x00\x00\x00\x00\x00\x00\x00\x03\x01\x00\x00\x00\x00\x00\x00\x00\x01\x00\x00\x00\x03\
\x02c2\x00\x00\x00\x08\x00\x00\x00@\x00\x00\x00\x20\x00\
\x02t3\x00\x00\x00\x00\x00\x00\x00\x04\x02\x01\x00\x00\x00\x09\x00\x00\x00@\x00\x00\x00\x20\
\x00\
\x02t4\x00\x00\x00\x00\x00\x00\x00\x05\x03\x00\x00\x00\x00\x0a\x00\x00\x00@\x00\x00\x00\x20\
\x00\
\x02c1\x02z1\x00\x00\x00\x04\x00\x00\x00\x10\x00\x00\x00\x00\x0a\x00\x00\x00\x00\x00\x00\x00\
\x00\x00\x00\x00\x00\x00\x00\x02X\x01\
\x02c2\x02z2\x03gpu\x00\x00\x08\x00\x00\x00\x20\x00\x00\x00\x00\x14\x00\x00\x00\x00\x00\x00\
\x00\x01\x00\x00\x00\x00\x00\x00\x02\xbc\x00\
\x01\x00\x1e\x01\x00\x00\x00\x00\x03zed\x04apps\x00\x00\x00\x03\x00\x00\x00@\x00\x00\x00\x80\
\x00\x00\x1f\x90\x00";

/// What is printed of its rows.
pub const ALL: &str =
    r#"{"row":{"disk":16,"domain":"apps","instances":1,"memory":32,"port":9090,"process":"api","route":"api.example","tag":"gpu"},"table":"desired"}
{"row":{"disk":128,"domain":"apps","instances":4,"memory":64,"port":8080,"process":"web","route":null,"tag":null},"table":"desired"}
{"row":{"disk":128,"domain":"apps","instances":3,"memory":64,"port":8080,"process":"zed","route":null,"tag":null},"table":"desired"}
{"row":{"cell":null,"count":0,"error":true,"index":0,"instance":null,"presence":"ordinary","process":"web","since":3,"state":"unclaimed"},"table":"actual"}
{"row":{"cell":"c1","count":0,"error":false,"index":1,"instance":"0.1","presence":"ordinary","process":"web","since":4,"state":"claimed"},"table":"actual"}
{"row":{"cell":"c2","count":1,"error":false,"index":2,"instance":"1.7","presence":"ordinary","process":"web","since":5,"state":"running"},"table":"actual"}
{"row":{"cell":"c1","count":0,"error":false,"index":2,"instance":"0.2","presence":"evacuating","process":"web","since":2,"state":"running"},"table":"actual"}
{"row":{"cell":null,"count":3,"error":false,"index":3,"instance":null,"presence":"ordinary","process":"web","since":6,"state":"crashed"},"table":"actual"}
{"row":{"birth":2,"cell":null,"disk":32,"failed":null,"instance":null,"memory":64,"name":"t1","since":7,"state":"pending","tag":"gpu"},"table":"task"}
{"row":{"birth":3,"cell":"c2","disk":32,"failed":null,"instance":"1.3","memory":64,"name":"t2","since":8,"state":"running","tag":null},"table":"task"}
{"row":{"birth":4,"cell":null,"disk":32,"failed":true,"instance":null,"memory":64,"name":"t3","since":9,"state":"completed","tag":null},"table":"task"}
{"row":{"birth":5,"cell":null,"disk":32,"failed":false,"instance":null,"memory":64,"name":"t4","since":10,"state":"resolving","tag":null},"table":"task"}
{"row":{"cell":"c1","containers":10,"disk":4096,"epoch":0,"evacuating":true,"memory":1024,"tag":null,"until":600,"zone":"z1"},"table":"cell"}
{"row":{"cell":"c2","containers":20,"disk":8192,"epoch":1,"evacuating":false,"memory":2048,"tag":"gpu","until":700,"zone":"z2"},"table":"cell"}
"#;
