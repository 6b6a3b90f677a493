//! The scheduler, channels and `select`. Go specification, "Go statements", "Send statements", "Receive
//! operator", "Select statements", "Close".
//!
//! A channel is an array of its capacity, how many values it holds, the first and the last of them,
//! whether it is closed, and the rings of those who wait to receive and to send. One who waits is an array
//! of the one before, the next one, the frame, the number of its case, what it sends, and all that wait
//! for the same `select`.

/// Functions and variables, in order.
pub const TALK: [&'static str; 16] = [
    // The queue of frames that go on: the first and the last one.
    "
var $q=[null,null];",
    // The frame below all.
    "
var $rest=[null,0,null,null,0,null,null,null];",
    // The frame that goes on.
    "
var $now=null;",
    // What a frame is given whose value was sent.
    "
var $sent=[0,true];",
    // Puts a frame in the queue.
    "
function $go($x){
 var $n=[$x,null];
 if($q[0]===null){
  $q[0]=$n;
 }else{
  $q[1][1]=$n;
 }
 $q[1]=$n;
}",
    // A channel.
    "
function $chan($n){
 if($n<0||$n>67108864){
  $panic($p6);
 }
 var $r=[null,null];
 var $s=[null,null];
 $r[0]=$r;
 $r[1]=$r;
 $s[0]=$s;
 $s[1]=$s;
 return [$n,0,[null,null],false,$r,$s];
}",
    // One who waits goes on, and is given what comes with its case.
    "
function $wake($w,$v){
 var $g=$w[5];
 var $j=0;
 if($g===null){
  $g=[$w];
 }
 while($j<$g.length){
  $g[$j][0][1]=$g[$j][1];
  $g[$j][1][0]=$g[$j][0];
  $j=$j+1;
 }
 $w[2][6]=[$w[3],$v];
 $go($w[2]);
}",
    // Closes a channel.
    "
function $close($c){
 if($c===null){
  $panic($p11);
 }
 if($c[3]){
  $panic($p10);
 }
 $c[3]=true;
 while($c[4][1]!==$c[4]){
  $wake($c[4][1],null);
 }
 while($c[5][1]!==$c[5]){
  $wake($c[5][1],false);
 }
}",
    // Goes on, for ever: `$end` ends the run. What the engine throws of its own goes on to it.
    "
function $turn(){
 for(;;){
  try{
   for(;;){
    if($now===$rest){
     if($q[0]===null){
      $end(2,\"fatal error: all goroutines are asleep - deadlock!\\x0a\");
     }
     $now=$q[0][0];
     $q[0]=$q[0][1];
    }
    $now[0]($now);
   }
  }catch($catch){
   if($catch!==$thrown){
    throw $catch;
   }
   $now[1]=0;
   $now[4]=2;
   $now[5]=$catch;
  }
 }
}",
    // Goes on at a frame.
    "
function $call($x){
 $now=$x;
}",
    // The others come first.
    "
function $yield($f){
 $go($f);
 $now=$rest;
}",
    // Sends; false where the frame waits.
    "
function $send($f,$c,$v){
 var $w=$c;
 if($c===null){
  $now=$rest;
  return false;
 }
 if($c[3]){
  $panic($p9);
 }
 $f[6]=$sent;
 $w=$c[4][1];
 if($w!==$c[4]){
  $wake($w,[$v]);
  return true;
 }
 if($c[1]<$c[0]){
  $put($c,$v);
  return true;
 }
 $wait($c[5],$f,0,$v,null);
 return false;
}",
    // Receives; false where the frame waits. It is given an array of the value, or null from a closed channel.
    "
function $recv($f,$c){
 var $w=$c;
 if($c===null){
  $now=$rest;
  return false;
 }
 $w=$c[5][1];
 if($c[1]>0){
  $f[6]=[0,[$c[2][0][0]]];
  $c[2][0]=$c[2][0][1];
  $c[1]=$c[1]-1;
  if($w!==$c[5]){
   $put($c,$w[4]);
   $wake($w,true);
  }
  return true;
 }
 if($w!==$c[5]){
  $f[6]=[0,[$w[4]]];
  $wake($w,true);
  return true;
 }
 if($c[3]){
  $f[6]=[0,null];
  return true;
 }
 $wait($c[4],$f,0,null,null);
 return false;
}",
    // A frame waits in a ring.
    "
function $wait($l,$f,$i,$v,$g){
 var $w=[$l[0],$l,$f,$i,$v,$g];
 $l[0][1]=$w;
 $l[0]=$w;
 $now=$rest;
 if($g!==null){
  $g.push($w);
 }
}",
    // Takes one of the cases that are ready; false where the frame waits. A case is an array of the channel,
    // whether it sends, and what.
    "
function $select($f,$x,$d){
 var $r=[];
 var $i=0;
 var $c=null;
 var $g=$r;
 while($i<$x.length){
  $c=$x[$i][0];
  if($c!==null&&($c[3]||($x[$i][1]?$c[1]<$c[0]||$c[4][1]!==$c[4]:$c[1]>0||$c[5][1]!==$c[5]))){
   $r.push($i);
  }
  $i=$i+1;
 }
 if($r.length>0){
  $i=$r[$r.length===1?0:$pick($r.length)];
  $c=$x[$i][0];
  if($x[$i][1]){
   $send($f,$c,$x[$i][2]);
  }else{
   $recv($f,$c);
  }
  $f[6]=[$i,$f[6][1]];
  return true;
 }
 if($d){
  $f[6]=[-1,null];
  return true;
 }
 $now=$rest;
 $i=0;
 while($i<$x.length){
  $c=$x[$i][0];
  if($c!==null){
   $wait($c[$x[$i][1]?5:4],$f,$i,$x[$i][2],$g);
  }
  $i=$i+1;
 }
 return false;
}",
    // Puts a value in a buffer.
    "
function $put($c,$v){
 var $n=[$v,null];
 if($c[1]===0){
  $c[2][0]=$n;
 }else{
  $c[2][1][1]=$n;
 }
 $c[2][1]=$n;
 $c[1]=$c[1]+1;
}",
];

/// `$turn` in a script whose frames never wait.
pub const TURN_ALONE: &'static str = "
function $turn(){
 for(;;){
  try{
   for(;;){
    $now[0]($now);
   }
  }catch($catch){
   if($catch!==$thrown){
    throw $catch;
   }
   $now[1]=0;
   $now[4]=2;
   $now[5]=$catch;
  }
 }
}";

/// `$turn` in a script that throws nothing, and whose frames never wait.
pub const TURN_CALM: &'static str = "
function $turn(){
 for(;;){
  $now[0]($now);
 }
}";
