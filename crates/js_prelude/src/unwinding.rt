//! Panics, deferred calls, `recover`, and the last report. Go specification, "Handling panics", "Defer
//! statements".

/// Functions and variables, in order.
pub const UNWINDING: [&'static str; 8] = [
    // What the script threw last.
    "
var $thrown=null;",
    // Throws: nothing else of a script does.
    "
function $panic($v){
 $thrown=$v;
 throw $v;
}",
    // The panic of an index, by its text, that is not below a length.
    "
function $index($i,$n){
 $panic([$p1[0],\"runtime error: index out of range [\"+$i+\"]\"+($i.charCodeAt(0)===45?\"\":\" with length \"+String($n))]);
}",
    // A frame, or null for a nil function, is to be run when a frame ends.
    "
function $defer($f,$x){
 $f[3]=[$x,$f[3]];
}",
    // The panic that the frame below is at, which goes on no more; else null.
    "
function $recover($f){
 var $u=$f[2];
 if($u[4]!==2){
  return null;
 }
 $u[4]=1;
 return $u[5];
}",
    // What a frame that ends does next: a deferred call, or with a panic the frame below; false where it returns.
    "
function $unwind($f){
 var $d=$f[3];
 var $u=$f[2];
 if($d!==null){
  $f[3]=$d[1];
  if($d[0]===null){
   $panic($p2);
  }
  $now=$d[0];
  return true;
 }
 if($f[4]!==2){
  return false;
 }
 if($u===$rest){
  $now=[$report,1,null,null,0,$f[5],null];
  return true;
 }
 $u[1]=0;
 $u[4]=2;
 $u[5]=$f[5];
 $now=$u;
 return true;
}",
    // The frame of the last report: the answer of `Error` where there is such a method.
    "
function $report($f){
 var $v=$f[5];
 if($f[1]===0){
  $end(2,\"panic: (panic in Error)\\x0a\");
 }
 if($f[1]===2){
  $end(2,\"panic: \"+$f[6]+\"\\x0a\");
 }
 if($v!==null){
  if(\"$Error.:>1,\" in $v[0][1]){
   $f[1]=2;
   $now=$v[0][1][\"$Error.:>1,\"]($f,$v);
   return;
  }
 }
 $end(2,\"panic: \"+$told($v)+\"\\x0a\");
}",
    // What is told of a value without `Error`.
    "
function $told($v){
 var $k=0;
 if($v===null){
  return \"nil\";
 }
 $k=$v[0][0][0];
 if($k===1){
  return String($v[1]);
 }
 if($k===2){
  return $v[1]?\"true\":\"false\";
 }
 if($k===3){
  return $v[1];
 }
 if($k===5||$k===6){
  return $str64($v[1],$k===5);
 }
 return \"(value)\";
}",
];

/// `$report` in a script without a method `Error`.
pub const REPORT_ALONE: &'static str = "
function $report($f){
 $end(2,\"panic: \"+$told($f[5])+\"\\x0a\");
}";

/// `$report` in a script in which methods `Error` never wait, so that one answers at once.
pub const REPORT_PLAIN: &'static str = "
function $report($f){
 var $v=$f[5];
 if($f[1]===0){
  $end(2,\"panic: (panic in Error)\\x0a\");
 }
 if($v!==null){
  if(\"$Error.:>1,\" in $v[0][1]){
   $end(2,\"panic: \"+$v[0][1][\"$Error.:>1,\"]($v)+\"\\x0a\");
  }
 }
 $end(2,\"panic: \"+$told($v)+\"\\x0a\");
}";

/// `$told` in a script without interface values of 64 bits.
pub const TOLD_NARROW: &'static str = "
function $told($v){
 var $k=0;
 if($v===null){
  return \"nil\";
 }
 $k=$v[0][0][0];
 if($k===1){
  return String($v[1]);
 }
 if($k===2){
  return $v[1]?\"true\":\"false\";
 }
 if($k===3){
  return $v[1];
 }
 return \"(value)\";
}";

/// `$unwind` in a script without deferred calls.
pub const UNWIND_ALONE: &'static str = "
function $unwind($f){
 var $u=$f[2];
 if($f[4]!==2){
  return false;
 }
 if($u===$rest){
  $now=[$report,1,null,null,0,$f[5],null];
  return true;
 }
 $u[1]=0;
 $u[4]=2;
 $u[5]=$f[5];
 $now=$u;
 return true;
}";

/// `$unwind` in a script that throws nothing and has no deferred calls.
pub const UNWIND_CALM: &'static str = "
function $unwind($f){
 return false;
}";
